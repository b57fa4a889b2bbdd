// A hand record for C and Rust to call (01 "Records"). The record and the room for its answer cross as a pointer and a
// length each. The entry takes all pieces of bytes and all rooms.
ghost use Rattle.records.specs.Record.{Recorded};

use records::entry::answer_record;

// The answer record is written and its code returned. A room that is not 16 bytes is refused with 8 and left as it is
// (01 "Refusal numbers").
#[unsafe(no_mangle)]
pub extern "C" fn lastavon_record(hand: &[u8], answer: &mut [u8]) -> u8
    ensures { Recorded hand.now answer.old result answer.new }
{
    answer_record(hand, answer)
}
