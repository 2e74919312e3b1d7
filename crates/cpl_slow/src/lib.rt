//! The slow part of a coupling step over whole lists: the flights are taken at its beginning, and after the fast steps the land
//! drains and the ice freezes, ridges and melts.
#![tactic(auto)]

mod blocks;
mod drains;
mod ice;
mod land;
mod room;
mod slow;
mod take;
mod tally;

pub use room::SlowRoom;
pub use slow::slow_step;
pub use take::take_flights;
pub use tally::SlowTally;
