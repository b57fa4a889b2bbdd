// An answer as one word: the number and the two sets, or the index and the number of a refusal (01 "Refusal numbers").
ghost use Rattle.std.specs.Prelude.{◌≡◌};
ghost use Rattle.lastavon.specs.Word.{word_of};

use tile::found::Found;
use tile::refusal::Reason;

// At which bit each part begins.
const NECESSARY: u32 = 8;

const UNNECESSARY: u32 = 24;

const INDEX: u32 = 40;

const CODE: u32 = 48;

// (No `From`: a `Result` and `u64` are std's.)
pub(crate) fn word(answer: Result<Found, Reason>) -> u64
    ensures { result ≡ word_of answer }
{
    match answer {
        Ok(found) => {
            u64::from(found.number)
                + (u64::from(found.necessary) << NECESSARY)
                + (u64::from(found.unnecessary) << UNNECESSARY)
        }
        Err(reason) => {
            ((reason.index() as u64 % 256) << INDEX) + (u64::from(reason.code()) << CODE)
        }
    }
}
