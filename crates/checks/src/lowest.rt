// The lowest index with a fault: refusals 4 and 6 both give it (01 "Refusal numbers").
ghost use Rattle.std.specs.Prelude.{not, ◌<◌, get_or, T};
ghost use Rattle.tile.specs.Count.{copies};
ghost use Rattle.checks.specs.Checked.{Finds};

use tile::tiles::Tiles;

// The lowest index of which there are more than four.
pub(crate) fn lowest_over(counts: &[u8]) -> Option<usize>
    ensures { Finds (λ j. copies < get_or counts.now j 0) result }
{
    counts.iter().position(|&count| 4 < count)
}

// The lowest index that holds tiles which may not be held.
pub(crate) fn lowest_barred<B: Tiles>(counts: &[u8]) -> Option<usize>
    ensures { Finds (λ j. T (not (B.board.held j)) × (0 < get_or counts.now j 0)) result }
{
    counts
        .iter()
        .enumerate()
        .position(|(i, &count)| 0 < count && !B::is_held(i))
}
