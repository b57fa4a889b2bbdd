// The part of a question that is no plain byte.
ghost use Rattle.std.specs.Prelude.{◌≡◌};
ghost use Rattle.hand_replay.specs.Question.{end_of};

// Where the counts end, which is inside the question whatever it says. (`suit_replay` has the same with its own two numbers: one line each.)
pub(crate) fn end_of(long: u8) -> usize
    ensures { result ≡ end_of long }
{
    1 + usize::from(long.min(36))
}
