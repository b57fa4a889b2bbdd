// The record entry (01 "Records", "Refusal numbers"). It takes all pieces of bytes and all rooms, and does its own checking.
ghost use Rattle.records.specs.Record.{Recorded};

use crate::bytes::{ANSWER, BROKEN, COUNTS, HAND, NO_ROOM, answered, coded};
use crate::put::put;
use hand::entry::fast_answer;
use tile::one_hand::code_of;

// A number and no `Result`: 01 fixes that the record entry returns its code.
/// Answers a hand record into the room for an answer record, and returns its code. A room that is not 16 bytes is left as it is.
pub fn answer_record(hand: &[u8], out: &mut [u8]) -> u8
    ensures { Recorded hand.now out.old result out.new }
{
    if out.len() != ANSWER {
        return NO_ROOM;
    }
    if hand.len() != HAND {
        put(out, coded(BROKEN));
        return BROKEN;
    }
    let found = fast_answer(&hand[0..COUNTS], hand[COUNTS], hand[COUNTS + 1]);
    // opened by `let .. else`, as 01 asks here and of the program
    let Ok(values) = found else {
        let code = code_of(found);
        put(out, coded(code));
        return code;
    };
    put(out, answered(values));
    0
}
