//! The rounds of a run, and the values that edges between pieces carry: what each component's cells hold after each round of a
//! coupling step, and what a use of an edge carries, by the functions of the undivided run alone.
#![tactic(auto)]

mod rounds;
mod values;

pub use rounds::{
    air_law, ice_law, land_law, next_air, next_ice, next_land, next_sea, sea_law, seen_law,
    states_law, sun_law,
};
pub use values::{
    air_halo_law, air_to_ice_law, air_to_land_law, ice_to_air_law, ice_to_ocean_law,
    land_to_air_law, land_to_ice_law, ocean_halo_law, ocean_to_ice_law, places_law, uses_law,
};
