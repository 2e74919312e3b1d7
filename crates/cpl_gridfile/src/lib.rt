//! The text of grids: reading it, with the exact place of the first fault, and spelling it.
#![tactic(auto)]

mod contact;
mod fault;
mod item;
mod judge;
mod limit;
mod mesh;
mod next_line;
mod print;
mod read;
mod reader;

pub use fault::GridError;
pub use print::print_grid;
pub use read::{read_air, read_grid, take_grid};
