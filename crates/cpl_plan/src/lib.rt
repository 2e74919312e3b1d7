//! What a run goes by: a grid, a namelist and a start that fit each other.
#![tactic(auto)]

mod budget;
mod error;
mod laws;
mod plan;
mod stocks;

pub use error::PlanError;
pub use laws::{carries_law, sums_law, value_law, wiring_law};
pub use plan::Plan;
pub use stocks::{Holdings, Stocks, holdings_of};
