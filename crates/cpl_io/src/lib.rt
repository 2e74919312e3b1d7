//! The outside of the coupler: named files and a line of output, each with a count of its faults.
#![tactic(auto)]

mod disk;
mod failure;
mod memory;
mod named;
mod read;
mod real;
mod schedule;
mod shelf;
mod sink;
mod sure;
mod system;
mod whole;

pub use disk::{Disk, Found};
pub use memory::{MemShelf, MemSink};
pub use read::{ReadError, read_whole};
pub use real::{FileShelf, OutSink};
pub use shelf::{Shelf, ShelfError};
pub use sink::{Sink, SinkError};
pub use sure::{SureShelf, SureSink};
pub use whole::write_whole;
