// The entries for a whole hand (01 "What a target is"). They take all counts, all numbers of melds and all games, and do their own checking.
ghost use Rattle.tile.specs.Hand.{HandPromised};

use crate::found::found_for;
use crate::way::{Search, Table, Way};
use checks::check::check;
use tile::games::{FourPlayer, Game, ThreePlayer};
use tile::one_hand::HandFound;
use tile::refusal::Reason;

// In a game that is known: test 1 is done.
fn answer_in<G: Game, W: Way>(counts: &[u8], k: u8) -> Result<HandFound, Reason>
    ensures { HandPromised G.GAME k counts.now result }
{
    check::<G>(counts, 1, k)?;
    Ok(found_for::<G, W>(counts, k))
}

/// The answer for 34 counts, k melds and a game, by any way.
pub fn answer_by<W: Way>(counts: &[u8], k: u8, game: u8) -> Result<HandFound, Reason>
    ensures { HandPromised game k counts.now result }
{
    if game == ThreePlayer::GAME {
        return answer_in::<ThreePlayer, W>(counts, k);
    }
    if game == FourPlayer::GAME {
        return answer_in::<FourPlayer, W>(counts, k);
    }
    Err(Reason::Game)
}

// One function under two names, which callers and documents use.

/// With each suit searched, as in the Rust source.
pub fn answer(counts: &[u8], k: u8, game: u8) -> Result<HandFound, Reason>
    ensures { HandPromised game k counts.now result }
{
    answer_by::<Search>(counts, k, game)
}

/// The same answer, hundreds of times faster: with each suit's goals from a table.
pub fn fast_answer(counts: &[u8], k: u8, game: u8) -> Result<HandFound, Reason>
    ensures { HandPromised game k counts.now result }
{
    answer_by::<Table>(counts, k, game)
}
