//! The formulas of pieces are those of the whole: what a piece computes from its own cells, its holes and what it takes is what the
//! undivided run has there. Laws only.
#![tactic(auto)]

mod air;
mod ocean;

pub use air::air_law;
pub use ocean::ocean_law;
