// The states that there can be at a rank of a suit.
ghost use Rattle.std.specs.Prelude.{◌≡◌};
ghost use Rattle.fast.specs.State.{nears_at, fars_at};

use tile::suit_tiles::SuitTiles;

// One more than the most sequences that can have been begun one rank before.
pub(crate) fn nears_at<S: SuitTiles>(rank: usize) -> usize
    ensures { result ≡ nears_at S.board rank }
{
    if rank == 0 {
        return 1;
    }
    if S::starts(rank - 1) {
        return 3;
    }
    1
}

// And two ranks before.
pub(crate) fn fars_at<S: SuitTiles>(rank: usize) -> usize
    ensures { result ≡ fars_at S.board rank }
{
    if rank == 0 {
        return 1;
    }
    nears_at::<S>(rank - 1)
}
