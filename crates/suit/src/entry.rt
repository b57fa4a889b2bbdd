// The entries for one suit (01 "One suit"). They take all counts and all goals, and do their own checking.
ghost use Rattle.tile.specs.Suit.{Promised, board_of};
ghost use Rattle.tile.specs.Goals.{GoalsPromised};

use crate::search::found_for;
use checks::check::check;
use tile::found::Found;
use tile::one_suit::{Goals, Suit, SuitGoals};
use tile::refusal::Reason;
use tile::suit_tiles::{Ends, Honours, Ranks, SuitTiles};
use tile::way;
use tile::way::Way;

// The starting bound: no target of four melds and a pair lacks more.
const BOUND: u8 = 14;

/// The answer for a goal of `pairs` pairs and `melds` melds, of a suit that is known when the program is built.
pub fn answer_for<S: SuitTiles>(counts: &[u8], pairs: u8, melds: u8) -> Result<Found, Reason>
    ensures { Promised S.board pairs melds counts.now result }
{
    check::<S>(counts, pairs, melds)?;
    Ok(found_for::<S>(counts, pairs, melds, BOUND))
}

/// The same for any suit.
pub fn answer(suit: Suit, counts: &[u8], pairs: u8, melds: u8) -> Result<Found, Reason>
    ensures { Promised (board_of suit) pairs melds counts.now result }
{
    match suit {
        Suit::Ranks => answer_for::<Ranks>(counts, pairs, melds),
        Suit::Honours => answer_for::<Honours>(counts, pairs, melds),
        Suit::Ends => answer_for::<Ends>(counts, pairs, melds),
    }
}

/// By trying the suit's targets one after the other.
#[derive(Clone, Copy, Debug, PartialEq, Eq)]
pub struct Search;

impl Way for Search {
    fn goals<S: SuitTiles>(counts: &[u8]) -> Result<Goals, Reason> {
        check::<S>(counts, 0, 0)?;
        let mut goals = [Found::default(); 10];
        // Tried by `array::from_fn`: the proof did not close. What it learns of an answer speaks of the closure, and not of these counts.
        for goal in 0..10 {
            goals[goal] = found_for::<S>(counts, (goal / 5) as u8, (goal % 5) as u8, BOUND);
        }
        Ok(goals)
    }
}

/// The answers for the ten goals: goal 5p + m is p pairs and m melds.
pub fn goals(suit: Suit, counts: &[u8]) -> SuitGoals
    ensures { GoalsPromised (board_of suit) counts.now result.checked result.goals }
{
    way::goals::<Search>(suit, counts)
}
