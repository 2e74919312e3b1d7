// Why there is no plan.
ghost use Rattle.std.specs.Prelude.{◌≡◌};
ghost use Rattle.cpl_plan.specs.declared.error.PlanError.TheVariants.{Memory};

use cpl_fixed::{Component, LayoutError, Quantity};
use std::alloc::AllocError;
use thiserror::Error;

/// Why a grid, a namelist and a start make no plan.
#[derive(Clone, Copy, Debug, PartialEq, Eq, Error)]
pub enum PlanError {
    /// The layout of this component doesn't fit its mosaic.
    #[error("Layout {0} {1}")]
    Layout(Component, LayoutError),
    /// The run ends after year 9999: the elapsed seconds at its end, or 2^63 - 1 where they are more.
    #[error("Date {0}")]
    Date(i64),
    /// All that a run may come to hold of this quantity is above 2^62 - 1: its total.
    #[error("Budget {0} {1}")]
    Budget(Quantity, i128),
    /// There was no memory.
    #[error("Memory")]
    Memory,
}

impl From<AllocError> for PlanError {
    ghost from_gives = { λ _ fault. fault ≡ Memory };

    fn from(_error: AllocError) -> PlanError {
        PlanError::Memory
    }
}
