// How many tiles lent counts hold.
ghost use Rattle.std.specs.Prelude.{◌≡◌, min, length};
ghost use Rattle.tile.specs.Count.{sum_to};

/// Any counts may be summed: 255 stands for every sum of 255 and more, so that none wraps.
// No `Option` for these: the promise is an equation with `min`. The first sum that passes a byte ends it, however many counts are left.
#[tactic(auto, using(crate::proofs::Sum::sum_none, crate::proofs::Sum::sum_more, crate::proofs::Sum::sum_over))]
pub fn total(counts: &[u8]) -> u8
    ensures { result ≡ min (sum_to (length counts.now) counts.now) 255 }
{
    let mut sum: u8 = 0;
    for count in counts {
        match sum.checked_add(*count) {
            Some(more) => sum = more,
            None => return 255,
        }
    }
    sum
}
