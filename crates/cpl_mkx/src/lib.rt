//! Exchange grids from boxes: the text of two grids of boxes, and their overlay.
#![tactic(auto)]

mod boxes;
mod digits;
mod edges;
mod fault;
mod judge;
mod limit;
mod next_line;
mod read;
mod reader;
mod size;

pub use boxes::{BoxMesh, BoxPair, MOST_EDGE};
pub use fault::BoxesError;
pub use read::read_boxes;
