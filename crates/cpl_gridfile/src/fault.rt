// Faults of a grid.
ghost use Rattle.std.specs.Prelude.{◌≡◌};
ghost use Rattle.cpl_gridfile.specs.Faults.{of_lines, of_xgrid};

use cpl_fixed::Component;
use cpl_lines::LinesError;
use cpl_xgrid::{Surface, XGridError};
use thiserror::Error;

/// Why bytes are no grid's text, or the grid breaks a rule. Lines are numbered from 1, all else from 0. The order of faults is
/// defined by this project: the first line at fault, then the first broken rule.
#[derive(Clone, Copy, Debug, PartialEq, Eq, Error)]
pub enum GridError {
    /// The first line that doesn't have its form, is missing or stands after the end.
    #[error("Syntax {0}")]
    Syntax(u32),
    /// The first line whose numbers break a limit.
    #[error("Limit {0}")]
    Limit(u32),
    /// The least cell of the air without area.
    #[error("Area {0} {1}")]
    Area(Component, u32),
    /// The least contact of the mosaic with a range outside it, ends out of order, or ranges of different length.
    #[error("ContactRange {0} {1}")]
    ContactRange(Component, u32),
    /// The least contact that joins a side which an earlier contact joins too, or one side to two different sides.
    #[error("ContactTwice {0} {1}")]
    ContactTwice(Component, u32),
    /// The least contact that joins a side to itself.
    #[error("SelfMeet {0} {1}")]
    SelfMeet(Component, u32),
    /// The first exchange cell of a list with a cell outside its mosaic, the land list first.
    #[error("BadIndex {0} {1}")]
    BadIndex(Surface, u32),
    /// The first exchange cell of a list without area, the land list first.
    #[error("ZeroArea {0} {1}")]
    ZeroArea(Surface, u32),
    /// The least cell of the air whose exchange cells of both lists don't sum to its area: the cell, their sum, its area.
    #[error("AirSum {0} {1} {2}")]
    AirSum(u32, i64, i64),
    /// The least cell of the land whose exchange cells don't sum to its area.
    #[error("LandSum {0} {1} {2}")]
    LandSum(u32, i64, i64),
    /// The least cell of the ocean whose exchange cells don't sum to its area.
    #[error("OceanSum {0} {1} {2}")]
    OceanSum(u32, i64, i64),
    /// The first outlet with a cell outside its mosaic, to a cell of the ocean without area, or of weight 0.
    #[error("Outlet {0}")]
    Outlet(u32),
    /// The least cell of the land with an area and without an outlet.
    #[error("NoOutlet {0}")]
    NoOutlet(u32),
    /// Out of memory.
    #[error("Memory")]
    Memory,
}

impl From<LinesError> for GridError {
    ghost from_gives = { λ lines fault. fault ≡ of_lines lines };

    fn from(fault: LinesError) -> GridError {
        match fault {
            LinesError::Syntax(number) => GridError::Syntax(number),
            LinesError::Limit(number) => GridError::Limit(number),
            LinesError::Memory => GridError::Memory,
        }
    }
}

impl From<XGridError> for GridError {
    ghost from_gives = { λ xgrid fault. fault ≡ of_xgrid xgrid };

    fn from(fault: XGridError) -> GridError {
        match fault {
            XGridError::BadIndex(list, row) => GridError::BadIndex(list, row),
            XGridError::ZeroArea(list, row) => GridError::ZeroArea(list, row),
            XGridError::AirSum(cell, sum, area) => GridError::AirSum(cell, sum, area),
            XGridError::LandSum(cell, sum, area) => GridError::LandSum(cell, sum, area),
            XGridError::OceanSum(cell, sum, area) => GridError::OceanSum(cell, sum, area),
            XGridError::Outlet(outlet) => GridError::Outlet(outlet),
            XGridError::NoOutlet(cell) => GridError::NoOutlet(cell),
            XGridError::Memory => GridError::Memory,
        }
    }
}
