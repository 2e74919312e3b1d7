// Why lists make no exchange grid.
ghost use Rattle.std.specs.Prelude.{◌≡◌};
ghost use Rattle.cpl_xgrid.specs.declared.error.XGridError.TheVariants.{Memory};

use crate::Surface;
use std::alloc::AllocError;

/// Why lists make no exchange grid. Rows, outlets and cells are numbered from 0. The order of the rules is defined by this
/// project.
#[derive(Clone, Copy, Debug, PartialEq, Eq)]
pub enum XGridError {
    /// The first row with a cell outside its mosaic.
    BadIndex(Surface, u32),
    /// The first row of area 0.
    ZeroArea(Surface, u32),
    /// The least cell of the air whose exchange cells don't sum to its area: the cell, their sum, its area.
    AirSum(u32, i64, i64),
    /// The same for the land and the land list.
    LandSum(u32, i64, i64),
    /// The same for the ocean and the ocean list.
    OceanSum(u32, i64, i64),
    /// The first outlet with a cell outside its mosaic, to a cell of the ocean of area 0, or of weight 0.
    Outlet(u32),
    /// The least cell of the land with an area above 0 that has no outlet.
    NoOutlet(u32),
    /// There was no memory.
    Memory,
}

impl From<AllocError> for XGridError {
    ghost from_gives = { λ _ answer. answer ≡ Memory };

    fn from(_error: AllocError) -> Self {
        XGridError::Memory
    }
}
