//! A cell of the land: what it gains in a fast step, and what runs off in a coupling step.
#![tactic(auto)]

mod cell;

pub use cell::LandCell;
