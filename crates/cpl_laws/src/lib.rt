//! Laws of the coupled step: what its definitions keep, whoever computes them.
#![tactic(auto)]

mod columns;
mod laws;

pub use columns::columns_law;
pub use laws::{elements_law, fast_law, once_law, slow_law, surface_law};
