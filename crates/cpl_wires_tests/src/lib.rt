//! Worked cases of edges and scripts.
#![tactic(auto)]

#[cfg(test)]
mod compare;
#[cfg(test)]
mod extremes;
#[cfg(test)]
mod folded;
#[cfg(test)]
mod listing;
#[cfg(test)]
mod made;
#[cfg(test)]
mod one_column;
#[cfg(test)]
mod turns;
#[cfg(test)]
mod worlds;
