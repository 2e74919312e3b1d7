// Faults of boxes.
ghost use Rattle.std.specs.Prelude.{◌≡◌};
ghost use Rattle.cpl_mkx.specs.Faults.{of_lines};
ghost use Rattle.cpl_mkx.specs.declared.fault.BoxesError.TheVariants.{Memory};

use cpl_fixed::Component;
use cpl_lines::LinesError;
use std::alloc::{AllocError, AllocFailed};
use thiserror::Error;

/// Why bytes are no text of boxes, or the boxes make no exchange grid. Lines are numbered from 1. The order of faults is defined by
/// this project: the first line at fault, edges out of order, folds of odd width, and then what the overlay lacks.
#[derive(Clone, Copy, Debug, PartialEq, Eq, Error)]
pub enum BoxesError {
    /// The first line that doesn't have its form, is missing or stands after the end.
    #[error("Syntax {0}")]
    Syntax(u32),
    /// The first line whose numbers break a limit.
    #[error("Limit {0}")]
    Limit(u32),
    /// The first line whose edges don't rise strictly.
    #[error("Order {0}")]
    Order(u32),
    /// A fold of an odd number of columns, of the air or of the ocean.
    #[error("OddFold {0}")]
    OddFold(Component),
    /// No cell of the ocean has an area.
    #[error("NoWet")]
    NoWet,
    /// There are this many exchange cells, more than 2^20.
    #[error("TooMany {0}")]
    TooMany(u32),
    /// Out of memory.
    #[error("Memory")]
    Memory,
}

impl From<LinesError> for BoxesError {
    ghost from_gives = { λ lines fault. fault ≡ of_lines lines };

    fn from(fault: LinesError) -> BoxesError {
        match fault {
            LinesError::Syntax(number) => BoxesError::Syntax(number),
            LinesError::Limit(number) => BoxesError::Limit(number),
            LinesError::Memory => BoxesError::Memory,
        }
    }
}

impl From<AllocError> for BoxesError {
    ghost from_gives = { λ _ fault. fault ≡ Memory };

    fn from(_error: AllocError) -> BoxesError {
        BoxesError::Memory
    }
}

impl<T: Drop> From<AllocFailed<T>> for BoxesError {
    ghost from_gives = { λ _ fault. fault ≡ Memory };

    fn from(_failed: AllocFailed<T>) -> BoxesError {
        BoxesError::Memory
    }
}
