//! Worked cases of the surface: fluxes of elements, cells of the land and cells of the ice.
#![tactic(auto)]

#[cfg(test)]
mod cells;
#[cfg(test)]
mod fluxes;
#[cfg(test)]
mod rates;
