//! What the crates of tests share: checks of numbers that a test makes, and the rates of the worked examples.
#![tactic(auto)]

mod amounts;
mod rates;
mod tiles;

pub use amounts::are_amounts;
pub use rates::example_rates;
pub use tiles::are_small_tiles;
