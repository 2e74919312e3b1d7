//! Worked cases of the ocean's step and of what its top layer takes and cuts off: over whole lists, and in pieces.
#![tactic(auto)]

#[cfg(test)]
mod piece;
#[cfg(test)]
mod piece_rows;
#[cfg(test)]
mod sea;
#[cfg(test)]
mod sea_rows;
#[cfg(test)]
mod shapes;
