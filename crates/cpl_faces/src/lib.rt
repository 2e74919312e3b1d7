//! The faces of a mosaic: pairs of sides of cells that meet; and the sides of a cell.
#![tactic(auto)]

mod face;
mod listing;
mod sides;

pub use face::Face;
pub use listing::{faces, faces_law};
pub use sides::rank;
