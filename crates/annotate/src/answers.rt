// Many records: each answer in its own sixteen bytes.
ghost use Rattle.std.specs.Prelude.{◌*◌, ◌≤◌, length};
ghost use Rattle.records.specs.Many.{pieces, Filled};

use crate::reply::reply;
use hand::way::Way;
use records::bytes::{ANSWER, HAND};
use records::put::put;

// Answers all pieces of `hands`, in order, at the start of `out`. The number of bytes written is returned. By index and not by `chunks` beside
// `chunks_mut`: `Filled` speaks of piece i and place i, and a chain would have to count them again.
pub(crate) fn answers<W: Way>(hands: &[u8], out: &mut [u8]) -> usize
    requires { pieces hands.now * 16 ≤ length out.old }
    ensures { Filled hands.now out.old result out.new }
{
    let n = hands.len().div_ceil(HAND);
    for i in 0..n {
        let from = i * HAND;
        let to = (from + HAND).min(hands.len());
        let bytes = reply::<W>(&hands[from..to]);
        let at = i * ANSWER;
        put(&mut out[at..at + ANSWER], bytes);
    }
    n * ANSWER
}
