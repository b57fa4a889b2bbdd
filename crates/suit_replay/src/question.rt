// The parts of a question that are no plain byte.
ghost use Rattle.std.specs.Prelude.{◌≡◌};
ghost use Rattle.suit_replay.specs.Question.{suit_of, end_of};

use tile::one_suit::Suit;

// (`Suit` and `u8` are both of other crates, so that there can be no `From` here.)
pub(crate) fn suit_of(kind: u8) -> Suit
    ensures { result ≡ suit_of kind }
{
    match kind {
        0 => Suit::Ranks,
        1 => Suit::Honours,
        _ => Suit::Ends,
    }
}

// Where the counts end, which is inside the question whatever it says. (`hand_replay` has the same with its own two numbers: one line each.)
pub(crate) fn end_of(long: u8) -> usize
    ensures { result ≡ end_of long }
{
    4 + usize::from(long.min(12))
}
