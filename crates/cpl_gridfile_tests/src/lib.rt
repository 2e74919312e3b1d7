//! Worked cases of grid texts: what is read and printed, and the exact place of the first fault.
#![tactic(auto)]

#[cfg(test)]
mod faults;
#[cfg(test)]
mod grids;
