//! The namelist that steers a run: its tokens, groups and values, and the calendar of its dates.
#![tactic(auto)]

mod civil;
mod fault;
mod group;
mod names;
mod numbers;
mod places;
mod settings;
mod syntax;
mod table;
mod token;
mod value;

pub use civil::Civil;
pub use fault::{NamesError, Required, StepFault};
pub use names::Names;
pub use table::table_law;
