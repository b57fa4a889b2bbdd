// A rank: its rows, made from those of the next. What the choices give (01 "One suit"; `D_TABLE` of the Rust source) is made for a whole row: all
// numbers of melds at once, so that the compiler can take several words in one instruction.
ghost use Rattle.std.specs.Prelude.{◌≡◌, ◌+◌, ◌≤◌, ◌<◌};
ghost use Rattle.fast.specs.Row.{joined_row, choice_row, best_row, tried_if};
ghost use Rattle.fast.specs.Fill.{filled};

use crate::cell::{Adds, NO_TARGET, OVER, meet};
use crate::layout::State;
use crate::rows::{Rows, put};

// So many sequences, triplets and pairs.
#[derive(Clone, Copy)]
struct Choice {
    sequences: usize,
    triplets: usize,
    pairs: usize,
    ghost melds_few: { sequences + triplets ≤ 2 },
    ghost pairs_few: { pairs ≤ 1 },
}

const fn of(sequences: usize, triplets: usize, pairs: usize) -> Choice
    requires melds_few { sequences + triplets ≤ 2 }
    requires pairs_few { pairs ≤ 1 }
    ensures { (result.sequences ≡ sequences) × (result.triplets ≡ triplets) × (result.pairs ≡ pairs) }
{
    Choice {
        sequences,
        triplets,
        pairs,
    }
}

// What a rank has, as data and not as a type, since it differs from rank to rank of one suit: the rows of the next,
// what it adds, whether its tile may be held, and whether a sequence may start there.
#[derive(Clone, Copy)]
pub(crate) struct Rank<'a> {
    pub(crate) next: &'a Rows,
    pub(crate) adds: Adds,
    pub(crate) held: bool,
    pub(crate) starts: bool,
}

// All that a rank does is made for each kind of suit apart (`inline`): so what a suit never has costs nothing, and no rows are copied on their way.
impl<'a> Rank<'a> {
    // The row met with that which begins at `from`, to which the rank adds `add`.
    #[tactic(auto, unfolding(crate::specs::Row::joined_row, table::specs::Table::listed))]
    #[inline(always)]
    fn joined(&self, row: [u32; 5], from: usize, add: u32) -> [u32; 5]
        requires from_in { from ≤ 121 }
        requires add_low { add < 2097152 }
        ensures { result ≡ joined_row row self.now.next.now.cells from add }
    {
        let next = &self.next.cells;
        [
            meet(row[0], next[from] + add),
            meet(row[1], next[from + 1] + add),
            meet(row[2], next[from + 2] + add),
            meet(row[3], next[from + 3] + add),
            meet(row[4], next[from + 4] + add),
        ]
    }

    // One choice. Melds that are not there to be laid need no test: before each row stand words over every number.
    #[tactic(auto, unfolding(crate::specs::Row::choice_row))]
    #[inline(always)]
    fn choice(&self, row: [u32; 5], state: State, choice: Choice) -> [u32; 5]
        ensures { result ≡ choice_row self.now.next.now.cells self.now.adds.words state.near state.far state.left choice.sequences choice.triplets choice.pairs row }
    {
        if state.left < choice.pairs {
            return row;
        }
        let tiles = state.far
            + state.near
            + (choice.sequences + 3 * choice.triplets + 2 * choice.pairs);
        if 4 < tiles {
            return row;
        }
        let after = State {
            near: choice.sequences,
            far: state.near,
            left: state.left - choice.pairs,
        };
        let start = after.place();
        self.joined(
            row,
            start - (choice.sequences + choice.triplets),
            self.adds.words[tiles],
        )
    }

    // The best of the choices that are tried at the rank: the empty one; where its tile may be held a pair and a triplet; and where a sequence may start
    // the five with sequences.
    #[tactic(auto, unfolding(crate::specs::Row::best_row, walk::specs::Walk::up_to))]
    #[inline(always)]
    fn best(&self, state: State) -> [u32; 5]
        ensures { result ≡ best_row self.now.next.now.cells self.now.adds.words (tried_if self.now.held self.now.starts) state.near state.far state.left }
    {
        let empty = self.choice([NO_TARGET; 5], state, of(0, 0, 0));
        if !self.held {
            return empty;
        }
        let pair = self.choice(empty, state, of(0, 0, 1));
        let triplet = self.choice(pair, state, of(0, 1, 0));
        if !self.starts {
            return triplet;
        }
        let one = self.choice(triplet, state, of(1, 0, 0));
        let and_pair = self.choice(one, state, of(1, 0, 1));
        let and_triplet = self.choice(and_pair, state, of(1, 1, 0));
        let two = self.choice(and_triplet, state, of(2, 0, 0));
        self.choice(two, state, of(2, 0, 1))
    }

    // All rows: of the states with fewer than `nears` and `fars` sequences, each for no pair and for one.
    #[tactic(auto, using(crate::proofs::Turns::pairs_none, crate::proofs::Turns::pairs_more, crate::proofs::Turns::fars_none, crate::proofs::Turns::fars_more, crate::proofs::Turns::nears_none, crate::proofs::Turns::nears_more, crate::proofs::Reach::low_before))]
    #[inline(always)]
    pub(crate) fn rows(&self, nears: usize, fars: usize) -> Rows
        requires nears_few { nears ≤ 3 }
        requires fars_few { fars ≤ 3 }
        ensures { result.cells ≡ filled (best_row self.now.next.now.cells self.now.adds.words (tried_if self.now.held self.now.starts)) nears fars }
    {
        let mut cells = [OVER; 126];
        for near in 0..nears {
            for far in 0..fars {
                for left in 0..2 {
                    let state = State { near, far, left };
                    put(&mut cells, state.place(), self.best(state));
                }
            }
        }
        Rows { cells }
    }
}
