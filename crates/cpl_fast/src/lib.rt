//! The fast step on whole lists: what flows between the air and the surface, element by element.
#![tactic(auto)]

mod air;
mod divide;
mod fast;
mod flows;
mod land;
mod layout;
mod lists;
mod look;
mod numbers;
mod ocean;
mod once;
mod part_lists;
mod portions;
mod rain;
mod room;
mod stages;
mod sums;
mod suns;
mod surface;
mod tables;

pub use air::{Rained, let_rain};
pub use fast::{FastTally, step};
pub use flows::{Flow, Link, Sky, Tables, flow_through};
pub use once::fast_step;
pub use portions::Portions;
pub use room::FastRoom;
pub use sums::{Sums, Taken, part_sums, taken_by};
