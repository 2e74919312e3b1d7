//! A restart in pieces: what a window of a mosaic has of a state, as a file of its own.
#![tactic(auto)]

mod bytes;
mod cutting;
mod places;
mod window;

pub use cpl_fixed::Component;
pub use cutting::cut;
pub use window::Window;
