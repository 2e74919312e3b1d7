//! Made grids of any size: a cubed sphere over a folded ocean, with land where numbers say so.
#![tactic(auto)]

mod areas;
mod grid;
mod outlets;
mod overlaps;
mod recipe;
mod shapes;
mod stream;

pub use grid::{areas_law, make_grid};
pub use recipe::Recipe;
pub use shapes::MOST_SIZE;
pub use stream::{Purpose, drawn};
