// Words that several crates share.
use std::fmt;
use thiserror::Error;

/// A part of the coupled model (after FMS, where ice and ocean share a grid).
#[derive(Clone, Copy, Debug, PartialEq, Eq)]
pub enum Component {
    Atmos,
    Land,
    Ice,
    Ocean,
}

impl fmt::Display for Component {
    fn fmt<W: fmt::Write>(&self, f: &mut fmt::Formatter<W>) -> fmt::Result {
        f.write_str(match self {
            Component::Atmos => "atmos",
            Component::Land => "land",
            Component::Ice => "ice",
            Component::Ocean => "ocean",
        })
    }
}

/// What the coupler keeps stock of (after FMS, without its units: each is a whole number of units of its own).
///
/// One unit of ice at freezing holds 1092 units of heat, one of water at freezing 1426, and one of vapour 3926. This
/// scale is defined by this project.
#[derive(Clone, Copy, Debug, PartialEq, Eq)]
pub enum Quantity {
    Heat,
    Water,
    Salt,
}

impl fmt::Display for Quantity {
    fn fmt<W: fmt::Write>(&self, f: &mut fmt::Formatter<W>) -> fmt::Result {
        f.write_str(match self {
            Quantity::Heat => "heat",
            Quantity::Water => "water",
            Quantity::Salt => "salt",
        })
    }
}

/// Why a layout of pieces doesn't fit a mosaic.
#[derive(Clone, Copy, Debug, PartialEq, Eq, Error)]
pub enum LayoutError {
    /// The layout has this many pieces, more than 64.
    #[error("TooManyPieces {0}")]
    TooManyPieces(u32),
    /// This tile has fewer rows or columns of cells than the layout has of pieces.
    #[error("TooFine {0}")]
    TooFine(u32),
    /// There was no memory.
    #[error("Memory")]
    Memory,
}
