//! Group updates: the halos of several fields, filled by strips through one buffer for each strip.
#![tactic(auto)]

mod group;
mod parts;

pub use group::{Group, group_law};
