//! The bytes of the states of a run: reading, judging and writing them.
#![tactic(auto)]

mod air;
mod counts;
mod lawful;
mod reading;
mod restart;
mod sections;
mod spellings;
mod start_error;
mod version;

pub use air::{decode_air, encode_air, faults_of_air};
pub use cpl_state::{Air, Mid, Whole};
pub use restart::{decode, encode, encode_first, restart_reads_back};
pub use spellings::faults_of_restart;
pub use start_error::StartError;
