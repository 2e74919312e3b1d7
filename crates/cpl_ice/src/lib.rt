//! A cell of the ice: its flight from the ocean, its gains in a fast step, and its slow step.
#![tactic(auto)]

mod cell;
mod parts;
mod shifts;
mod slow;

pub use cell::IceCell;
pub use parts::{NOTHING, Salty, ToIce};
