//! The numbers of one piece: a field of its cells with a halo around them, and the numbers of its faces.
#![tactic(auto)]

mod faces;
mod field;

pub use faces::Faces;
pub use field::{Field, part};
