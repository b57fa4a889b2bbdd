// What there can be at a rank of a suit, and from it on.
ghost use Rattle.std.specs.Prelude.{◌≡◌, ◌+◌, ◌<◌};
ghost use Rattle.suit.specs.Task.{choices_for, room_for};

use tile::suit_tiles::SuitTiles;

// How many of the choices are tried at a rank that may be held: all where a sequence may start, else those without one.
pub(crate) fn choices_at<S: SuitTiles>(rank: usize) -> usize
    ensures { result ≡ choices_for S.RUNS rank }
{
    if rank < S::RUNS { 8 } else { 3 }
}

// Whether `left` pairs and melds find room from a rank on: each has a rank of its own, or a sequence may still start.
// (All numbers here are small; 1000 is far above them.)
pub(crate) fn has_room<S: SuitTiles>(rank: usize, left: usize) -> bool
    requires { rank + left < 1000 }
    ensures { result ≡ room_for S.RUNS S.board.kinds rank left }
{
    rank < S::RUNS || rank + left <= S::KINDS
}
