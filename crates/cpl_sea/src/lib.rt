//! The ocean over whole lists: its steps, and what it adds and cuts off at the ends of a coupling step.
#![tactic(auto)]

mod before;
mod blocks;
mod cell_faces;
mod columns;
mod ends;
mod laws;
mod links;
mod lookups;
mod moving;
mod ocean;
mod room;

pub use laws::sea_law;
pub use room::SeaRoom;
