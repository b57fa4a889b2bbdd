// An answer as three words (01 "Refusal numbers").
ghost use Rattle.std.specs.Prelude.{◌≡◌};
ghost use Rattle.lastavon.specs.Words.{words_of, HandTold};

use records::bytes::NO_ROOM;
use tile::one_hand::{HandFound, code_of};
use tile::refusal::Reason;

// How many words an answer has.
const WORDS: usize = 3;

// At which bit the parts of the first word begin.
const KINDS: u32 = 8;

const LIVE: u32 = 16;

const INDEX: u32 = 24;

// (No `From`: a `Result` and an array are std's.)
fn words_of(answer: Result<HandFound, Reason>) -> [u64; WORDS]
    ensures { result ≡ words_of answer }
{
    match answer {
        Ok(found) => [
            u64::from(found.number)
                + (u64::from(found.kinds) << KINDS)
                + (u64::from(found.live) << LIVE),
            found.necessary,
            found.unnecessary,
        ],
        Err(reason) => [(reason.index() as u64 % 256) << INDEX, 0, 0],
    }
}

// Writes the words of an answer and returns its code, which is what C gets back. A place for more or fewer words is refused with 8 and left as
// it is (01 "Refusal numbers").
pub(crate) fn tell_hand(answer: Result<HandFound, Reason>, words: &mut [u64]) -> u8
    ensures { HandTold answer words.old result words.new }
{
    if words.len() != WORDS {
        return NO_ROOM;
    }
    words.copy_from_slice(&words_of(answer));
    code_of(answer)
}
