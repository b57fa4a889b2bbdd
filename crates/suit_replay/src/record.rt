// An answer as eight bytes. (`words_replay` writes the two sets alike, behind one byte in place of four: they share two lines.)
ghost use Rattle.std.specs.Prelude.{◌≡◌};
ghost use Rattle.suit_replay.specs.Record.{record_of};

use tile::found::Found;
use tile::refusal::Reason;

pub(crate) fn record_of(answer: Result<Found, Reason>) -> [u8; 8]
    ensures { result ≡ record_of answer }
{
    match answer {
        Ok(found) => {
            let [low, high] = found.necessary.to_le_bytes();
            let [spare_low, spare_high] = found.unnecessary.to_le_bytes();
            [0, 0, found.number, 0, low, high, spare_low, spare_high]
        }
        Err(reason) => {
            let code = reason.code();
            let index = (reason.index() % 256) as u8;
            [code, index, 0, 0, 0, 0, 0, 0]
        }
    }
}
