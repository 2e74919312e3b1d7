//! Worked cases of plans and stocks, and of a step of a plan.
#![tactic(auto)]

#[cfg(test)]
mod fast;
#[cfg(test)]
mod parts;
#[cfg(test)]
mod step;
#[cfg(test)]
mod tests;
