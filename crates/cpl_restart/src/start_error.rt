// Why bytes are no state.
ghost use Rattle.std.specs.Prelude.{◌≡◌};
ghost use Rattle.cpl_restart.specs.declared.start_error.StartError.TheVariants.{Memory};

use std::alloc::AllocError;
use thiserror::Error;

/// Why bytes spell no state. Sections are numbered from 1, and the numbers of a section from 0.
#[derive(Clone, Copy, Debug, PartialEq, Eq, Error)]
pub enum StartError {
    /// The mark, a count or a section's numbers aren't all there.
    #[error("Short")]
    Short,
    /// The first eight bytes are another mark.
    #[error("Magic")]
    Magic,
    /// The count of this section isn't the grid's.
    #[error("Shape {0}")]
    Shape(u32),
    /// The sum of this section isn't that of its count and its numbers: the sum in the file, and the one found.
    #[error("Sum {0} {1} {2}")]
    Sum(u32, u64, u64),
    /// Bytes follow the last section.
    #[error("Trailing")]
    Trailing,
    /// The first negative number: its section and its index there.
    #[error("Negative {0} {1}")]
    Negative(u32, u32),
    /// The least cell with water whose parts don't sum to 65536.
    #[error("Parts {0}")]
    Parts(u32),
    /// The first number that isn't 0 of a cell of the land or the ocean without an area: its section and its index there.
    #[error("Dry {0} {1}")]
    Dry(u32, u32),
    /// The index of the first number of a face that is out of range, or isn't 0 where one of its cells has no area.
    #[error("Wall {0}")]
    Wall(u32),
    /// There was no memory.
    #[error("Memory")]
    Memory,
}

impl From<AllocError> for StartError {
    ghost from_gives = { λ _ e. e ≡ Memory };

    fn from(_error: AllocError) -> StartError {
        StartError::Memory
    }
}
