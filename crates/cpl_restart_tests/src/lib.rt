//! Tests of the states' bytes. Each expected value follows from the format by hand.
#![tactic(auto)]

#[cfg(test)]
mod air;
