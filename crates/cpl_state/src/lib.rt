//! The states of a run, and the definitions of the undivided run: what a fast step, a coupling step and a whole run make of them.
#![tactic(auto)]

mod air;
mod whole;

pub use air::Air;
pub use whole::{Mid, Whole};
