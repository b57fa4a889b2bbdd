// What is found for a hand without a fault (01 "Merge", "What a target is").
ghost use Rattle.std.specs.Prelude.{◌≡◌, length};
ghost use Rattle.tile.specs.Target.{Target};
ghost use Rattle.tile.specs.Answer.{Answer};
ghost use Rattle.tile.specs.Refusal.{Faultless, SuitFault};
ghost use Rattle.tile.specs.Goals.{AllRight};
ghost use Rattle.tile.specs.Suits.{whole_of};
ghost use Rattle.tile.specs.Hand.{HandRight};

use crate::tally::{kinds, live};
use crate::way::Way;
use crate::whole::whole;
use merge::Merged;
use tile::games::Game;
use tile::one_hand::HandFound;
use tile::one_suit::Goals;
use tile::suit_tiles::{Honours, Ranks, SuitTiles};
use tile::suits::{SuitM, SuitP, SuitS, SuitType, SuitZ};

// The ten goals of a part. Where the part has no fault they are there.
fn part_goals<S: SuitTiles, W: Way>(part: &[u8]) -> Goals
    requires { Faultless (SuitFault S.board 0 0 part.now) }
    ensures { AllRight S.board part.now result }
{
    W::goals::<S>(part).unwrap()
}

// Number and sets. Each suit is answered in its part of the lent counts.
fn merged_for<G: Game, W: Way>(counts: &[u8], k: u8) -> Merged
    requires { (length counts.now ≡ 34) × Faultless (SuitFault (whole_of G.IS_THREE_PLAYER) 1 k counts.now) }
    ensures { Answer 34 (Target (whole_of G.IS_THREE_PLAYER) 1 k) counts.now result.number result.necessary result.unnecessary }
{
    let m = part_goals::<G::M, W>(&counts[SuitM::OFFSET..SuitP::OFFSET]);
    let p = part_goals::<Ranks, W>(&counts[SuitP::OFFSET..SuitS::OFFSET]);
    let s = part_goals::<Ranks, W>(&counts[SuitS::OFFSET..SuitZ::OFFSET]);
    let z = part_goals::<Honours, W>(&counts[SuitZ::OFFSET..SuitZ::OFFSET + SuitZ::LENGTH]);
    whole(m, p, s, z, k as usize)
}

// All five values.
pub(crate) fn found_for<G: Game, W: Way>(counts: &[u8], k: u8) -> HandFound
    requires { Faultless (SuitFault (whole_of G.IS_THREE_PLAYER) 1 k counts.now) }
    ensures { HandRight (whole_of G.IS_THREE_PLAYER) k counts.now result }
{
    let merged = merged_for::<G, W>(counts, k);
    HandFound {
        number: merged.number,
        necessary: merged.necessary,
        unnecessary: merged.unnecessary,
        kinds: kinds(merged.necessary),
        live: live(merged.necessary, counts),
    }
}
