// The four suits' answers, merged into the hand's (01 "Merge").
ghost use Rattle.std.specs.Prelude.{◌≡◌, ◌≤◌};
ghost use Rattle.merge.specs.Merge.{hand_merged};
ghost use Rattle.hand.specs.Entry.{AllLow};

use crate::entry_of::entry_of;
use crate::parts::merge;
use crate::words::NUMBER;
use merge::Merged;
use tile::one_suit::Goals;
use tile::suits::{SuitM, SuitP, SuitS, SuitZ};

// In the order m, p, s, z. Of the last merge one goal is asked for: a pair and k melds.
pub(crate) fn whole(m: Goals, p: Goals, s: Goals, z: Goals, k: usize) -> Merged
    requires { (k ≤ 4) × AllLow m p s z }
    ensures { result ≡ hand_merged m p s z k }
{
    let mp = merge(entry_of::<SuitM>(m), entry_of::<SuitP>(p));
    let mps = merge(mp, entry_of::<SuitS>(s));
    let mpsz = merge(mps, entry_of::<SuitZ>(z));
    let hand = mpsz[5 + k];
    Merged {
        number: (hand.necessary / NUMBER) as u8,
        necessary: hand.necessary % NUMBER,
        unnecessary: hand.unnecessary % NUMBER,
    }
}
