//! Worked cases of the air alone, undivided and in pieces.
#![tactic(auto)]

#[cfg(test)]
mod runs;
#[cfg(test)]
mod tests;
