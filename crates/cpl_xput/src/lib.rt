//! Values between the pieces of the air and those of the surface: copied to exchange cells, added up from them, and amounts
//! divided by shares.
#![tactic(auto)]

mod elements;
mod pieces;
mod shares;
mod sums;
mod xput;

pub use sums::sums_law;
pub use xput::XPut;
