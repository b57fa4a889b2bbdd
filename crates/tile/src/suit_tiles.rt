// The three kinds of suit as types (01 "Tiles and games", "One suit"): code that is written over them is made for each.
ghost use Rattle.std.specs.Prelude.{◌≡◌, ℕ, refl};
ghost use Rattle.tile.specs.Board.{ranks, honours, ends};
ghost use Rattle.tile.specs.Suit.{IsSuit, of_ranks, of_honours, of_ends};

use crate::tiles::Tiles;

/// What a suit is besides: where sequences may start.
pub trait SuitTiles: Tiles {
    /// Below which rank a sequence may start.
    const RUNS: usize;

    ghost RUNS: { ℕ };

    /// How far it is from one rank that may be held to the next.
    const STEP: usize;

    ghost STEP: { ℕ };

    fn starts(rank: usize) -> bool
        ensures { result ≡ Self.board.starts rank }
    {
        rank < Self::RUNS
    }

    ghost is_suit: { IsSuit Self.board RUNS STEP };
}

/// Nine ranks in order.
#[derive(Clone, Copy, Debug, PartialEq, Eq)]
pub struct Ranks;

impl Tiles for Ranks {
    const KINDS: usize = 9;

    ghost board = { ranks };

    ghost KINDS = { 9 };

    ghost kinds = { refl };

    fn is_held(_rank: usize) -> bool {
        true
    }
}

impl SuitTiles for Ranks {
    const RUNS: usize = 7;

    const STEP: usize = 1;

    ghost RUNS = { 7 };

    ghost STEP = { 1 };

    ghost is_suit = { of_ranks };
}

/// Seven honours, without order.
#[derive(Clone, Copy, Debug, PartialEq, Eq)]
pub struct Honours;

impl Tiles for Honours {
    const KINDS: usize = 7;

    ghost board = { honours };

    ghost KINDS = { 7 };

    ghost kinds = { refl };

    fn is_held(_kind: usize) -> bool {
        true
    }
}

impl SuitTiles for Honours {
    const RUNS: usize = 0;

    const STEP: usize = 1;

    ghost RUNS = { 0 };

    ghost STEP = { 1 };

    ghost is_suit = { of_honours };
}

/// 1m/9m: of nine ranks only the first and the last.
#[derive(Clone, Copy, Debug, PartialEq, Eq)]
pub struct Ends;

impl Tiles for Ends {
    const KINDS: usize = 9;

    ghost board = { ends };

    ghost KINDS = { 9 };

    ghost kinds = { refl };

    fn is_held(rank: usize) -> bool {
        rank == 0 || rank == 8
    }
}

impl SuitTiles for Ends {
    const RUNS: usize = 0;

    const STEP: usize = 8;

    ghost RUNS = { 0 };

    ghost STEP = { 8 };

    ghost is_suit = { of_ends };
}
