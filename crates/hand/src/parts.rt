// The merge of two parts of the tiles (01 "Merge"): entries in, an entry out. The Rust source merges over its first entry and so must go from the
// last goal to the first; here both entries stay as they are, and the order of the goals does not matter.
ghost use Rattle.hand.specs.Entry.{MergedTo, AllLight};

use crate::packed::Packed;

// For each number of melds: the best of giving none, some or all of them to the first part and the rest to the second, without a pair (`bare`),
// with it in the second part and with it in the first. Both loops stand in one function and end at known numbers: so the compiler rolls them out
// and does both sets of an answer at once.
pub(crate) fn merge(a: [Packed; 10], c: [Packed; 10]) -> [Packed; 10]
    requires { AllLight a × AllLight c }
    ensures { MergedTo 5 a c result }
{
    let mut entry = a;
    'melds: for melds in 0..5 {
        let mut bare = a[0].beside(c[melds]);
        let mut second = a[0].beside(c[5 + melds]);
        let mut first = a[5].beside(c[melds]);
        for fewer in 0..melds {
            let given = fewer + 1;
            let rest = melds - given;
            bare = bare.better_share(a[given], c[rest]);
            second = second.better_share(a[given], c[5 + rest]);
            first = first.better_share(a[5 + given], c[rest]);
        }
        entry[melds] = bare;
        entry[5 + melds] = second.better(first);
    }
    entry
}
