// The sixteen bytes of an answer record (01 "Records").
ghost use Rattle.std.specs.Prelude.{◌≡◌, Ok};
ghost use Rattle.records.specs.Record.{set_bytes, record_of, code_record};

use tile::one_hand::HandFound;

/// The length of a hand record.
pub const HAND: usize = 36;

/// How many of its bytes are counts.
pub const COUNTS: usize = 34;

/// The length of an answer record.
pub const ANSWER: usize = 16;

/// How many of its bytes are a set.
pub const SET: usize = 5;

/// The code of a record that has not its length (01 "Refusal numbers").
pub const BROKEN: u8 = 7;

/// The code of a room that has not the length of an answer record; it is returned and not written.
pub const NO_ROOM: u8 = 8;

/// The lowest five bytes of a set, which is all of it: there are 34 tiles.
pub fn set_bytes(set: u64) -> [u8; SET]
    ensures { result ≡ set_bytes set }
{
    let [a, b, c, d, e, _, _, _] = set.to_le_bytes();
    [a, b, c, d, e]
}

/// The record of the five values of an answer.
// (`hand_replay` writes the same bytes in another order, its own.)
pub fn answered(found: HandFound) -> [u8; ANSWER]
    ensures { result ≡ record_of (Ok found) }
{
    let mut record = [0; ANSWER];
    record[1] = found.number;
    record[2..7].copy_from_slice(&set_bytes(found.necessary));
    record[7..12].copy_from_slice(&set_bytes(found.unnecessary));
    record[12] = found.kinds;
    record[13] = found.live;
    record
}

/// The record of a refusal: its code and fifteen zeros.
pub fn coded(code: u8) -> [u8; ANSWER]
    ensures { result ≡ code_record code }
{
    let mut record = [0; ANSWER];
    record[0] = code;
    record
}
