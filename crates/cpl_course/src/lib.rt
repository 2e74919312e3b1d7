//! The course of a run: what every state of it and every coupling step keeps.
#![tactic(auto)]

mod laws;

pub use laws::{coupling_law, course_law, restart_law, totals_law};
