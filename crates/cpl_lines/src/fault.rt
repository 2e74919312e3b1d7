// Faults of a line and of a text of lines.
ghost use Rattle.std.specs.Prelude.{◌≡◌};
ghost use Rattle.cpl_lines.specs.Steps.{fault_at};
ghost use Rattle.cpl_lines.specs.declared.fault.LineFault.TheVariants as LineFault;

use std::alloc::{AllocError, AllocFailed};
use thiserror::Error;

/// What is wrong with the line that comes next. A line's form comes before its limits.
#[derive(Clone, Copy, Debug, PartialEq, Eq, Error)]
pub enum LineFault {
    /// It doesn't have its form, or is missing.
    #[error("Form")]
    Form,
    /// It has its form, and a number of it breaks a limit.
    #[error("Limit")]
    Limit,
    /// Out of memory.
    #[error("Memory")]
    Memory,
}

/// The first line at fault in a text. Lines are numbered from 1.
#[derive(Clone, Copy, Debug, PartialEq, Eq, Error)]
pub enum LinesError {
    /// The first line that doesn't have its form, is missing or stands after the end.
    #[error("Syntax {0}")]
    Syntax(u32),
    /// The first line whose numbers break a limit.
    #[error("Limit {0}")]
    Limit(u32),
    /// Out of memory.
    #[error("Memory")]
    Memory,
}

impl From<AllocError> for LineFault {
    ghost from_gives = { λ _ fault. fault ≡ LineFault.Memory };

    fn from(_error: AllocError) -> LineFault {
        LineFault::Memory
    }
}

impl<T: Drop> From<AllocFailed<T>> for LineFault {
    ghost from_gives = { λ _ fault. fault ≡ LineFault.Memory };

    fn from(_failed: AllocFailed<T>) -> LineFault {
        LineFault::Memory
    }
}

impl LineFault {
    /// The fault of a text whose line of this number has this fault.
    pub fn at(self, number: u32) -> LinesError
        ensures { result ≡ fault_at self number }
    {
        match self {
            LineFault::Form => LinesError::Syntax(number),
            LineFault::Limit => LinesError::Limit(number),
            LineFault::Memory => LinesError::Memory,
        }
    }
}
