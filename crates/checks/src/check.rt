// Whether lent counts are answered (01 "Refusal numbers"): the tests 2 to 6 in that order, the first fault first.
ghost use Rattle.tile.specs.Refusal.{SuitFault};
ghost use Rattle.checks.specs.Checked.{CheckedFor};

use crate::lowest::{lowest_barred, lowest_over};
use crate::total::total;
use tile::refusal::Reason;
use tile::tiles::Tiles;

/// There is no game here, and so no refusal 1: whoever is given a game tests it first.
pub fn check<B: Tiles>(counts: &[u8], pairs: u8, melds: u8) -> Result<(), Reason>
    ensures { CheckedFor (SuitFault B.board pairs melds counts.now) result }
{
    if 4 < melds || 1 < pairs {
        return Err(Reason::Goal);
    }
    if counts.len() != B::KINDS {
        return Err(Reason::Length);
    }
    if let Some(i) = lowest_over(counts) {
        return Err(Reason::Over(i));
    }
    if 14 < total(counts) {
        return Err(Reason::Sum);
    }
    if let Some(i) = lowest_barred::<B>(counts) {
        return Err(Reason::Barred(i));
    }
    Ok(())
}
