// Where the rows stand in the array of a rank: eighteen rows, two for each of nine states, and before each row some words that are no target.
ghost use Rattle.std.specs.Prelude.{◌≡◌, ◌≤◌};
ghost use Rattle.fast.specs.Row.{row_place};

// How many words a row has: for no meld up to four.
const WIDE: usize = 5;

// How many stand before it: as many as a choice has melds at most.
const BEFORE: usize = 2;

// A state, and how many pairs are to be laid: `near` and `far` sequences run into the rank.
#[derive(Clone, Copy)]
pub(crate) struct State {
    pub(crate) near: usize,
    pub(crate) far: usize,
    pub(crate) left: usize,
    ghost near_few: { near ≤ 2 },
    ghost far_few: { far ≤ 2 },
    ghost left_few: { left ≤ 1 },
}

impl State {
    // Where its row begins.
    pub(crate) fn place(self) -> usize
        ensures { result ≡ row_place self.near self.far self.left }
    {
        (WIDE + BEFORE) * (6 * self.near + 2 * self.far + self.left) + BEFORE
    }
}
