// The table, from the last rank to the first, and what its first row says.
ghost use Rattle.std.specs.Prelude.{◌≡◌, ◌<◌, ◌+◌, ◌/◌, ◌%◌, length, get_or};
ghost use Rattle.tile.specs.Refusal.{most_tiles};
ghost use Rattle.tile.specs.Goals.{AllRight};
ghost use Rattle.fast.specs.Word.{opened_word};
ghost use Rattle.fast.specs.Row.{row_place};
ghost use Rattle.fast.specs.Goals.{Opened};

use crate::cell::{adds_of, opened};
use crate::layout::State;
use crate::rank::Rank;
use crate::rows::{Rows, end};
use crate::state::{fars_at, nears_at};
use std::array;
use tile::found::Found;
use tile::one_suit::Goals;
use tile::suit_tiles::SuitTiles;

// What is given where there is no target: no target of four melds and a pair lacks more.
const BOUND: u8 = 14;

// A goal, from the rows of the first rank into which no sequence runs.
fn goal_of(rows: &Rows, goal: usize) -> Found
    requires { goal < 10 }
    ensures { result ≡ opened_word most_tiles (get_or rows.now.cells (row_place 0 0 (goal / 5) + goal % 5) 0) }
{
    let state = State {
        near: 0,
        far: 0,
        left: goal / 5,
    };
    opened(rows.cells[state.place() + goal % 5], BOUND)
}

fn goals_of(rows: &Rows) -> Goals
    ensures { Opened rows.now.cells result }
{
    array::from_fn(|goal| goal_of(rows, goal))
}

// The ten goals of a suit, from the last rank to the first; `bit` is the bit of the rank in a set.
#[tactic(auto, using(tile::proofs::Suit::kinds_few, crate::proofs::Suits::half_bit, crate::proofs::Suits::bit_few, crate::proofs::Reach::nears_few, crate::proofs::Reach::fars_few))]
pub(crate) fn found_for<S: SuitTiles>(counts: &[u8]) -> Goals
    requires { length counts.now ≡ S.board.kinds }
    ensures { AllRight S.board counts.now result }
{
    let mut rows = end();
    let mut bit: u32 = 1 << counts.len();
    for place in (0..counts.len()).rev() {
        bit /= 2;
        let rank = Rank {
            next: &rows,
            adds: adds_of(u32::from(counts[place]), bit),
            held: S::is_held(place),
            starts: S::starts(place),
        };
        rows = rank.rows(nears_at::<S>(place), fars_at::<S>(place));
    }
    goals_of(&rows)
}
