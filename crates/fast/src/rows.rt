// The rows of a rank, laid into one array.
ghost use Rattle.std.specs.Prelude.{◌≡◌, ◌≤◌, length};
ghost use Rattle.fast.specs.Row.{Low};
ghost use Rattle.fast.specs.Fill.{laid_row, filled, end_row};

use crate::cell::{NO_TARGET, OVER};

// Every word is so low that what a rank adds to it fits.
#[derive(Clone, Copy)]
pub(crate) struct Rows {
    pub(crate) cells: [u32; 126],
    ghost low: { Low cells },
}

// A loop and no `copy_from_slice`, whose clause cuts and joins lists: the places of the rows are proved over the fold `laid_row`.
#[tactic(auto, using(crate::proofs::Turns::laid_none, crate::proofs::Turns::laid_more))]
#[inline(always)]
pub(crate) fn put(cells: &mut [u32; 126], at: usize, row: [u32; 5])
    requires long { length cells.old ≡ 126 }
    requires fits { at ≤ 121 }
    ensures { cells.new ≡ laid_row at row 5 cells.old }
{
    for melds in 0..5 {
        cells[at + melds] = row[melds];
    }
}

// Past the last rank: nothing lacks where nothing is left to be laid, else there is no target.
#[tactic(auto, using(crate::proofs::Reach::low_end), unfolding(crate::specs::Fill::near_rows, crate::specs::Fill::far_rows, crate::specs::Fill::pair_rows, walk::specs::Walk::up_to))]
#[inline(always)]
pub(crate) fn end() -> Rows
    ensures { result.cells ≡ filled end_row 1 1 }
{
    let mut cells = [OVER; 126];
    // the two rows of the one state that there is begin at 2 and at 9 (`State::place`)
    put(
        &mut cells,
        2,
        [0, NO_TARGET, NO_TARGET, NO_TARGET, NO_TARGET],
    );
    put(&mut cells, 9, [NO_TARGET; 5]);
    Rows { cells }
}
