//! Worked cases of the exchange grid: refusals, the exchange cells of a cell, values that cross, and amounts that are divided.
#![tactic(auto)]

#[cfg(test)]
mod crossing;
#[cfg(test)]
mod grids;
#[cfg(test)]
mod tests;
