// What a mosaic is made of.
ghost use Rattle.std.specs.Prelude.{◌≡◌};
ghost use Rattle.cpl_mosaic.specs.declared.parts.MosaicError.TheVariants.{Memory};

use std::alloc::AllocError;

/// A side of a cell. The order W, E, S, N is defined by this project.
#[derive(Clone, Copy, Debug, PartialEq, Eq)]
pub enum Side {
    /// Toward lower `i`.
    W,
    /// Toward higher `i`.
    E,
    /// Toward lower `j`.
    S,
    /// Toward higher `j`.
    N,
}

/// A cell of a mosaic: its tile, its column `i` and its row `j`, each from 0.
#[derive(Clone, Copy, Debug, PartialEq, Eq)]
pub struct CellId {
    pub tile: u32,
    pub i: u32,
    pub j: u32,
}

/// The shape of a tile: `nx` columns and `ny` rows of cells, 1 to 1,024 each (after FMS).
#[derive(Clone, Copy, Debug, PartialEq, Eq)]
pub struct Tile {
    pub nx: u32,
    pub ny: u32,
}

/// A range of sides along an edge of a tile, from `lo` to `hi`, both included: by `j` along W and E, by `i` along S and N.
#[derive(Clone, Copy, Debug, PartialEq, Eq)]
pub struct Span {
    pub tile: u32,
    pub side: Side,
    pub lo: u32,
    pub hi: u32,
}

/// A contact of two ranges (after FMS): the k-th side of the first meets the k-th of the second, which counts from its end
/// where `flip` is set. The pairing at a fold, a contact of a range with itself, is defined by this project.
#[derive(Clone, Copy, Debug, PartialEq, Eq)]
pub struct Contact {
    pub first: Span,
    pub second: Span,
    pub flip: bool,
}

/// Why tiles and contacts make no mosaic. Contacts are numbered from 0.
#[derive(Clone, Copy, Debug, PartialEq, Eq)]
pub enum MosaicError {
    /// The least contact whose ranges don't both lie in the mosaic with their ends in order, or aren't equally long.
    ContactRange(u32),
    /// The least contact that joins a side which an earlier contact joins too, or one side to two different sides.
    ContactTwice(u32),
    /// The least contact that joins a side to itself.
    SelfMeet(u32),
    /// Out of memory.
    Memory,
}

impl From<AllocError> for MosaicError {
    ghost from_gives = { λ _ answer. answer ≡ Memory };

    fn from(_error: AllocError) -> Self {
        MosaicError::Memory
    }
}
