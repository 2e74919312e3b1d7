//! What flows between the air and a part of the surface: heat and evaporation of one element of the exchange grid.
#![tactic(auto)]

mod fluxes;
mod parts;
mod temperatures;

pub use fluxes::{element, element_between};
pub use parts::{AirSide, Flux, Kind, Part, Weather};
pub use temperatures::{
    FREEZING, HOTTEST, air_temperature, humidity, part_temperature, temperatures_law, weather,
};
