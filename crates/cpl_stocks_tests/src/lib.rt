//! The two tables from rows: worked tables, runs of no step, and the greatest numbers; partial sums and their words.
#![tactic(auto)]

#[cfg(test)]
mod exchanges;
#[cfg(test)]
mod partial;
#[cfg(test)]
mod stocks;
