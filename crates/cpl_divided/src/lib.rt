//! The air alone in pieces: each piece with a halo, and strips that fill the halos before each step.
#![tactic(auto)]

mod airs;
mod buffer;
mod halos;
mod load;
mod solo;
mod sweep;

pub use solo::run_divided;
