//! The commands of the coupler: words and files in, files and a line out.
#![tactic(auto)]

mod budget;
mod check;
mod counts;
mod delivery;
mod files;
mod inputs;
mod make;
mod migrate;
mod output;
mod pieces;
mod plan;
mod solo;
mod status;
mod summary;
mod top;
mod whole;

pub use output::{FileName, Output, Reply};
pub use status::{Status, Which};
pub use top::still_top;
