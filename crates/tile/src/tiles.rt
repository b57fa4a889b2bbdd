// The tiles of a suit or of a game: what counts are counted over (01 "Tiles and games").
ghost use Rattle.std.specs.Prelude.{◌≡◌, ℕ};
ghost use Rattle.tile.specs.Board.{Board, may_hold};

/// A suit, or all tiles of a game. Its board stands in proofs alone.
pub trait Tiles {
    ghost board: { Board };

    /// How many kinds there are.
    const KINDS: usize;

    ghost KINDS: { ℕ };

    /// Whether tiles of a kind may be held.
    fn is_held(kind: usize) -> bool
        ensures { result ≡ board.held kind };

    /// Whether a number is that of a kind which may be held.
    fn may_hold(kind: usize) -> bool
        ensures { result ≡ may_hold board kind }
    {
        kind < Self::KINDS && Self::is_held(kind)
    }

    ghost kinds: { KINDS ≡ board.kinds };
}
