// What the programs that answer stored questions share: each reads questions of one length from standard input, one after the other, and writes
// what answers them to standard output.
#![tactic(auto)]

ghost use Rattle.std.specs.Prelude.{◌<◌, List, ℕ, OnOk};
ghost use Rattle.replay.specs.Reply.{Replied, Turned};

use std::io;
use std::io::{Read, Write};

/// How questions of `LONG` bytes are answered.
pub trait Replay<const LONG: usize> {
    // What may be written for a question.
    ghost answers: { List ℕ → List ℕ → Type 0 };

    /// Writes what answers a question, whole or with an error.
    fn reply<W: Write>(question: &[u8; LONG], to: &mut W) -> io::Result<()>
        ensures { OnOk result (Replied answers question.now (W.contents to.old) (W.contents to.new)) };

    /// Reads a question and writes what answers it. Where no whole question is left that is an error: a last piece of one is ignored.
    fn turn<R: Read, W: Write>(from: &mut R, to: &mut W) -> io::Result<()>
        ensures { OnOk result (Turned LONG answers (R.remaining from.old) (R.remaining from.new) (W.contents to.old) (W.contents to.new)) }
    {
        let mut question = [0u8; LONG];
        from.read_exact(&mut question)?;
        Self::reply(&question, to)
    }

    // So that the room for a question can be lent to the reader: no slice is half of all memory.
    ghost short: { LONG < 4096 };
}
