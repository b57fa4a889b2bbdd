// A way to the answers of one suit (01 "One suit"). All keep the same promise, and it leaves one result: they differ in time alone.
ghost use Rattle.tile.specs.Suit.{board_of};
ghost use Rattle.tile.specs.Goals.{GoalsFor, GoalsPromised};

use crate::found::Found;
use crate::one_suit::{Goals, Suit, SuitGoals};
use crate::refusal::Reason;
use crate::suit_tiles::{Ends, Honours, Ranks, SuitTiles};

/// A way to a suit's ten goals; code over it is proved once, for all ways.
pub trait Way {
    /// The answers for the ten goals of a suit. Any counts may be lent.
    fn goals<S: SuitTiles>(counts: &[u8]) -> Result<Goals, Reason>
        ensures { GoalsFor S.board counts.now result };
}

// The suit may be known only when the program runs.
fn goals_of<W: Way>(suit: Suit, counts: &[u8]) -> Result<Goals, Reason>
    ensures { GoalsFor (board_of suit) counts.now result }
{
    match suit {
        Suit::Ranks => W::goals::<Ranks>(counts),
        Suit::Honours => W::goals::<Honours>(counts),
        Suit::Ends => W::goals::<Ends>(counts),
    }
}

/// The answers for the ten goals, and ten zeros where the suit is refused.
pub fn goals<W: Way>(suit: Suit, counts: &[u8]) -> SuitGoals
    ensures { GoalsPromised (board_of suit) counts.now result.checked result.goals }
{
    match goals_of::<W>(suit, counts) {
        Ok(goals) => SuitGoals {
            checked: Ok(()),
            goals,
        },
        Err(reason) => SuitGoals {
            checked: Err(reason),
            goals: [Found::default(); 10],
        },
    }
}
