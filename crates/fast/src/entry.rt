// The entry for one suit (01 "One suit"). It takes all counts, and does its own checking.
ghost use Rattle.tile.specs.Suit.{board_of};
ghost use Rattle.tile.specs.Goals.{GoalsPromised};

use crate::found::found_for;
use checks::check::check;
use tile::one_suit::{Goals, Suit, SuitGoals};
use tile::refusal::Reason;
use tile::suit_tiles::SuitTiles;
use tile::way;
use tile::way::Way;

/// From a table that is filled rank by rank.
#[derive(Clone, Copy, Debug, PartialEq, Eq)]
pub struct Table;

impl Way for Table {
    fn goals<S: SuitTiles>(counts: &[u8]) -> Result<Goals, Reason> {
        check::<S>(counts, 0, 0)?;
        Ok(found_for::<S>(counts))
    }
}

/// The answers for the ten goals: goal 5p + m is p pairs and m melds.
pub fn goals(suit: Suit, counts: &[u8]) -> SuitGoals
    ensures { GoalsPromised (board_of suit) counts.now result.checked result.goals }
{
    way::goals::<Table>(suit, counts)
}
