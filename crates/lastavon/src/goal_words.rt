// The ten goals of a suit as ten words (01 "Refusal numbers").
ghost use Rattle.lastavon.specs.Goals.{GoalsWritten};

use crate::suit_word::word;
use fast::entry::Table;
use records::bytes::NO_ROOM;
use tile::suit_tiles::SuitTiles;
use tile::way::Way;

// How many goals there are.
const GOALS: usize = 10;

// Writes the words of a suit's ten goals and returns their code: a refused suit is refused for each goal, and the
// refusal's number stands in each of the words too. A place for more or fewer words is refused with 8 and left as it is.
// (A number and no `Result`: it is what C gets back.)
pub(crate) fn tell_goals<S: SuitTiles>(counts: &[u8], words: &mut [u64]) -> u8
    ensures { GoalsWritten S.board counts.now words.old result words.new }
{
    if words.len() != GOALS {
        return NO_ROOM;
    }
    match Table::goals::<S>(counts) {
        Ok(goals) => {
            // by index and not by `zip`, since the promise says which word is whose
            for goal in 0..GOALS {
                words[goal] = word(Ok(goals[goal]));
            }
            0
        }
        Err(reason) => {
            words.fill(word(Err(reason)));
            reason.code()
        }
    }
}
