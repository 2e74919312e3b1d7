//! Whole-number arithmetic of the coupler, its limits, and what all its crates share.
#![tactic(auto)]

mod decimals;
mod division;
mod divisor;
mod flow;
mod gain;
mod limits;
mod list;
mod quotients;
mod rates;
mod sharing;
mod words;

pub use decimals::{decimal, is_numeral};
pub use division::{clamp, clamp_law, trunc_div, trunc_law};
pub use divisor::Divisor;
pub use flow::{FaceDivisor, flow_between, flow_with};
pub use gain::Gain;
pub use limits::{
    ICE_HEAT, LONGEST_SIDE, MELT_HEAT, MOST_AREA, MOST_BOXES_BYTES, MOST_CATEGORIES, MOST_CELLS,
    MOST_CONTACTS, MOST_EXCHANGE_CELLS, MOST_FACE, MOST_FAST_STEPS, MOST_FIELD_BYTES,
    MOST_GRID_BYTES, MOST_IN_ROW, MOST_LAYERS, MOST_LIST_BYTES, MOST_NAMES_BYTES, MOST_OCEAN_STEPS,
    MOST_OUTLETS, MOST_PIECES, MOST_START_BYTES, MOST_STEPS, MOST_TILES, MOST_TOTAL, MOST_WEIGHT,
    MOST_WORKERS, PARTS, VAPOUR_HEAT, WATER_HEAT, limits_law,
};
pub use list::List;
pub use quotients::{at_most_share, quotient};
pub use rates::Rates;
pub use sharing::{ShareIter, share, shares, shares_law};
pub use words::{Component, LayoutError, Quantity};
