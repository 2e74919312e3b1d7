//! The air of one piece: a step of its diffusion, from its cells and the holes around them.
#![tactic(auto)]

mod areas;
mod edge;
mod faces;
mod inner;
mod piece;
mod store;

pub use piece::AirPiece;
