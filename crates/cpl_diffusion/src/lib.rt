//! The diffusion of the air over a whole mesh: heat and vapour flow between all cells whose sides meet.
#![tactic(auto)]

mod faces;
mod sweep;

pub use sweep::{Room, Ways, diffuse, make_room, make_ways};
