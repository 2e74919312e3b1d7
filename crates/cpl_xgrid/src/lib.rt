//! The exchange grid: cells that belong to one cell of each of two parent grids, and the ways of runoff.
#![tactic(auto)]

mod cells;
mod error;
mod grid;
mod groups;
mod indexes;
mod parts;
mod refs;
mod rules;
mod xgrid;

pub use cells::by_cell;
pub use error::XGridError;
pub use grid::Grid;
pub use groups::Groups;
pub use parts::{Column, Outlet, Surface, XRef, XRow};
pub use refs::{air_cells, land_cells, other_cells};
pub use xgrid::XGrid;
