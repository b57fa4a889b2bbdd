// Where the four suits lie among the 34 counts (01 "Tiles and games", "Merge").
ghost use Rattle.std.specs.Prelude.{◌≡◌, ◌≤◌, ℕ, refl};
ghost use Rattle.std.proofs.Common.{rules};
ghost use Rattle.tile.specs.Suits.{place_of};

/// A suit's part of the 34 counts.
#[derive(Clone, Copy, Debug, PartialEq, Eq)]
pub struct Place {
    pub offset: usize,
    pub length: usize,
}

/// One of the four suits of a hand: where its counts lie among the 34.
pub trait SuitType {
    // Which suit it is: m is 0, p is 1, s is 2, z is 3.
    ghost number: { ℕ };

    const OFFSET: usize;

    ghost OFFSET: { ℕ };

    const LENGTH: usize;

    ghost LENGTH: { ℕ };

    fn place() -> Place
        ensures { result ≡ place_of number }
    {
        Place {
            offset: Self::OFFSET,
            length: Self::LENGTH,
        }
    }

    ghost offset: { OFFSET ≡ (place_of number).offset };

    ghost length: { LENGTH ≡ (place_of number).length };

    // No suit begins beyond the honours.
    ghost inside: { OFFSET ≤ 27 };
}

/// m: the first nine of the 34 counts.
#[derive(Clone, Copy, Debug, PartialEq, Eq)]
pub struct SuitM;

impl SuitType for SuitM {
    const OFFSET: usize = 0;

    const LENGTH: usize = 9;

    ghost number = { 0 };

    ghost OFFSET = { 0 };

    ghost LENGTH = { 9 };

    ghost offset = { refl };

    ghost length = { refl };

    ghost inside = { Prim.search rules };
}

/// p: the nine counts behind those of m.
#[derive(Clone, Copy, Debug, PartialEq, Eq)]
pub struct SuitP;

impl SuitType for SuitP {
    const OFFSET: usize = 9;

    const LENGTH: usize = 9;

    ghost number = { 1 };

    ghost OFFSET = { 9 };

    ghost LENGTH = { 9 };

    ghost offset = { refl };

    ghost length = { refl };

    ghost inside = { Prim.search rules };
}

/// s: the nine counts behind those of p.
#[derive(Clone, Copy, Debug, PartialEq, Eq)]
pub struct SuitS;

impl SuitType for SuitS {
    const OFFSET: usize = 18;

    const LENGTH: usize = 9;

    ghost number = { 2 };

    ghost OFFSET = { 18 };

    ghost LENGTH = { 9 };

    ghost offset = { refl };

    ghost length = { refl };

    ghost inside = { Prim.search rules };
}

/// z, the honours: the last seven counts.
#[derive(Clone, Copy, Debug, PartialEq, Eq)]
pub struct SuitZ;

impl SuitType for SuitZ {
    const OFFSET: usize = 27;

    const LENGTH: usize = 7;

    ghost number = { 3 };

    ghost OFFSET = { 27 };

    ghost LENGTH = { 7 };

    ghost offset = { refl };

    ghost length = { refl };

    ghost inside = { Prim.search rules };
}
