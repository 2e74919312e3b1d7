//! The words of a command line, and those of the command `run`.
#![tactic(auto)]

mod arguments;
mod command;
mod words;

pub use arguments::{are_arguments, number, positive};
pub use words::{RunWords, run_words};
