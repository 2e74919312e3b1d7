//! Where the exchange cells, outlets and cells of a piece stand in the lists that pieces hand to each other.
#![tactic(auto)]

mod ends;
mod find;
mod place;
mod places;

pub use place::{RowPlace, RowPlaces};
pub use places::{posted_places, row_places, taken_places};
