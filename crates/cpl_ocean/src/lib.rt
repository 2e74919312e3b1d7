//! The ocean of one piece: its steps, from its cells and faces and the holes around them, and what its top layer takes and cuts
//! off for the ice.
#![tactic(auto)]

mod basin;
mod fields;
mod flows;
mod heights;
mod inner;
mod layer;
mod loads;
mod mixing;
mod numbers;
mod piece;
mod sweep;
mod sweeps;
mod zone;

pub use piece::OceanPiece;
