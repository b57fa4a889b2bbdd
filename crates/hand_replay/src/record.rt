// An answer as sixteen bytes, in another order than in a record of `records`, and so by lines of its own.
ghost use Rattle.std.specs.Prelude.{◌≡◌};
ghost use Rattle.hand_replay.specs.Record.{record_of};

use records::bytes::set_bytes;
use tile::one_hand::HandFound;
use tile::refusal::Reason;

pub(crate) fn record_of(answer: Result<HandFound, Reason>) -> [u8; 16]
    ensures { result ≡ record_of answer }
{
    match answer {
        Ok(found) => {
            let mut record = [0; 16];
            record[2] = found.number;
            record[3] = found.kinds;
            record[4] = found.live;
            record[6..11].copy_from_slice(&set_bytes(found.necessary));
            record[11..16].copy_from_slice(&set_bytes(found.unnecessary));
            record
        }
        Err(reason) => {
            let code = reason.code();
            let index = (reason.index() % 256) as u8;
            [code, index, 0, 0, 0, 0, 0, 0, 0, 0, 0, 0, 0, 0, 0, 0]
        }
    }
}
