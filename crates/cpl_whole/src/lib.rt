//! The undivided run: whole lists, no pieces, one thread.
#![tactic(auto)]

mod copy;
mod coupling;
mod exchanges;
mod ground;
mod holdings;
mod journey;
mod laws;
mod ocean;
mod restart;
mod room;
mod run;
mod solo;
mod step;
mod surface;
mod tallies;
mod tally;

pub use coupling::couple;
pub use cpl_fast::{FastTally, fast_step};
pub use laws::rows_law;
pub use restart::restart_law;
pub use room::StepRoom;
pub use run::{Outcome, run_whole};
pub use solo::run_solo;
pub use step::step_whole;
pub use tallies::SurfaceTally;
pub use tally::StepTally;
