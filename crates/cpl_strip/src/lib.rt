//! Strips: which cells of which pieces the holes and the faces along the edges of a piece take their numbers from.
#![tactic(auto)]

mod faces;
mod halos;
mod holes;
mod laws;
mod parts;
mod table;

pub use faces::face_strips;
pub use halos::strips;
pub use laws::{face_strips_law, strips_law};
pub use parts::{FaceStrip, Hole, Strip};
