//! Tests of boxes between threads, over a tiny wiring.
#![tactic(auto)]

#[cfg(test)]
mod tests;
#[cfg(test)]
mod tiny;
