// The four-player and the three-player game (01 "Tiles and games"): they differ in the tiles that may be held.
ghost use Rattle.std.specs.Prelude.{ℕ, Bool, true, false, refl};
ghost use Rattle.tile.specs.Board.{whole4, whole3};
ghost use Rattle.tile.specs.Suits.{IsGame};

use crate::suit_tiles::{Ends, Ranks, SuitTiles};
use crate::suits::{SuitType, SuitZ};
use crate::tiles::Tiles;

/// A game: its tiles, with its number and the suit that m is in it.
pub trait Game: Tiles {
    /// m: the three-player game has 1m and 9m alone.
    type M: SuitTiles;

    const GAME: u8;

    ghost GAME: { ℕ };

    /// The flag that 01 gives a game; what the code does by it is said by `M` and by the tiles.
    const IS_THREE_PLAYER: bool;

    ghost IS_THREE_PLAYER: { Bool };

    ghost is_game: { IsGame Self.board Self.M.board GAME IS_THREE_PLAYER };
}

/// The four-player game: all 34 tiles.
#[derive(Clone, Copy, Debug, PartialEq, Eq)]
pub struct FourPlayer;

impl Tiles for FourPlayer {
    const KINDS: usize = SuitZ::OFFSET + SuitZ::LENGTH;

    ghost board = { whole4 };

    ghost KINDS = { 34 };

    ghost kinds = { refl };

    fn is_held(_tile: usize) -> bool {
        true
    }
}

impl Game for FourPlayer {
    type M = Ranks;

    const GAME: u8 = 4;

    const IS_THREE_PLAYER: bool = false;

    ghost GAME = { 4 };

    ghost IS_THREE_PLAYER = { false };

    ghost is_game = { record { all = refl; first = refl; number = refl } };
}

/// The three-player game, without 2m to 8m.
#[derive(Clone, Copy, Debug, PartialEq, Eq)]
pub struct ThreePlayer;

impl Tiles for ThreePlayer {
    const KINDS: usize = FourPlayer::KINDS;

    ghost board = { whole3 };

    ghost KINDS = { 34 };

    ghost kinds = { refl };

    // None of 2m to 8m.
    fn is_held(tile: usize) -> bool {
        tile < 1 || 7 < tile
    }
}

impl Game for ThreePlayer {
    type M = Ends;

    const GAME: u8 = 3;

    const IS_THREE_PLAYER: bool = true;

    ghost GAME = { 3 };

    ghost IS_THREE_PLAYER = { true };

    ghost is_game = { record { all = refl; first = refl; number = refl } };
}
