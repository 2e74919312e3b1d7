//! Worked examples, as laws: what edges between pieces carry, and what comes of it. The numbers were worked out by hand.
#![tactic(auto)]

mod one_column;
mod pieces;
mod two_cells;

pub use one_column::{cold_step, column_step, sea_values, slow_values, surface_values};
pub use pieces::{column_edges, column_start_sums, column_step_sums, split_values};
pub use two_cells::{face_values, water_values};
