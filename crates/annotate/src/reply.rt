// The answer record of a piece of the input.
ghost use Rattle.records.specs.Record.{Answers};

use hand::entry::answer_by;
use hand::way::Way;
use records::bytes::{ANSWER, BROKEN, COUNTS, HAND, answered, coded};
use tile::one_hand::code_of;

// The hand's answer is taken apart here and not by the record entry, so that the program can choose the way. The promise does not mention it.
pub(crate) fn reply<W: Way>(piece: &[u8]) -> [u8; ANSWER]
    ensures { Answers piece.now result }
{
    if piece.len() != HAND {
        return coded(BROKEN);
    }
    let found = answer_by::<W>(&piece[0..COUNTS], piece[COUNTS], piece[COUNTS + 1]);
    // opened by `let .. else`, as 01 asks here and of the record entry
    let Ok(values) = found else {
        return coded(code_of(found));
    };
    answered(values)
}
