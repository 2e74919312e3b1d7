//! Worked cases of boxes for one thread and of runs over a wiring.
#![tactic(auto)]

#[cfg(test)]
mod tests;
#[cfg(test)]
mod tiny;
