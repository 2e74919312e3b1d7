//! Inputs of any size: a grid, a namelist and a start, made of numbers that a number chooses.
#![tactic(auto)]

mod input;
mod names;
mod sections;
mod start;

pub use input::{Made, make, make_files};
pub use sections::Section;
pub use start::make_start;
