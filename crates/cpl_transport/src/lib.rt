//! The ocean's formulas on plain numbers, for one face, one cell and one column: heights of columns and the numbers of faces, what
//! moves through a face and what it leaves in a cell, vertical exchange, and what leaves the top layer for the ice.
#![tactic(auto)]

mod cells;
mod cuts;
mod heights;
mod mixing;
mod moves;

pub use cells::{after_exchange, exchanged_cells, joined, sum_of_sides, without};
pub use cuts::{cut, cut_law};
pub use heights::{face_law, height, next_face};
pub use mixing::{exchanged, mixing_law};
pub use moves::{correction_law, given, through, through_law, turned};
