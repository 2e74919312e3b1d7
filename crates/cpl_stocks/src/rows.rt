// Rows of the two tables.
use cpl_fixed::Quantity;
use cpl_namelist::Civil;

/// What flows between two parts of the model in a coupling step, the giver first (after FMS).
#[derive(Clone, Copy, Debug, PartialEq, Eq)]
pub enum Exchange {
    /// From the air to the land: the fluxes of all fast steps.
    AirLand,
    /// From the air to the ice and its skin of water: the fluxes of all fast steps.
    AirIce,
    /// From the land to the ice: runoff.
    LandIce,
    /// From the ocean to the ice: frazil and skin, taken a step after they were given.
    OceanIce,
    /// From the ice to the ocean: what it returns, taken a step after it was given.
    IceOcean,
}

/// A quantity's stocks after a number of coupling steps, each the sum over all cells, in that quantity's units
/// (stocks after FMS; the columns are defined by this project).
#[derive(Clone, Copy, Debug, PartialEq, Eq)]
pub struct StockRow {
    /// How many coupling steps were done in this run.
    pub step: u32,
    /// The date after them, of a year from 1 to 9999.
    pub date: Civil,
    /// The elapsed seconds after them.
    pub seconds: i64,
    pub quantity: Quantity,
    pub air: i64,
    pub land: i64,
    /// In the ice of all categories.
    pub ice: i64,
    pub ocean: i64,
    /// In flight from the ocean to the ice, frazil and skin.
    pub to_ice: i64,
    /// In flight from the ice to the ocean.
    pub to_ocean: i64,
    /// The sun that was absorbed in this run so far; 0 for water and salt.
    pub entered: i64,
    /// The heat that left to space in this run so far; 0 for water and salt.
    pub left: i64,
    /// The sum of the six stocks.
    pub total: i64,
}

/// A quantity's exchange in a coupling step, in that quantity's units: `before + gave = took + after` (defined by this
/// project).
#[derive(Clone, Copy, Debug, PartialEq, Eq)]
pub struct ExchangeRow {
    /// The coupling step, counted from 1.
    pub step: u32,
    pub exchange: Exchange,
    pub quantity: Quantity,
    /// In flight before the step; 0 where nothing flies.
    pub before: i64,
    /// The sum over the giver's cells.
    pub gave: i128,
    /// The sum over the taker's cells.
    pub took: i128,
    /// In flight after the step; 0 where nothing flies.
    pub after: i64,
}
