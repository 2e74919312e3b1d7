//! Who hands numbers to whom in a run by pieces, and in which order: the edges between pieces, and each piece's script.
#![tactic(auto)]

mod edges;
mod exchanges;
mod halos;
mod laws;
mod lengths;
mod moves;
mod pairs;
mod parts;
mod pieces;
mod script;
mod shared;
mod slots;

pub use exchanges::Exchanges;
pub use laws::{edge_law, few_law, schedule_law, stop_law, time_law, wired_law};
pub use parts::{Edge, Job, Move, Purpose, Stop, Turn};
