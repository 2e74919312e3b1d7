// The states of the coupled model.
use cpl_fixed::List;

/// The undivided state of a coupled grid between two coupling steps, as one list for each section of a restart.
///
/// Ca, Cl and Co are the cells of the air, the land and the ocean, in whole order; K is the number of ice categories, L that of
/// the ocean's layers, F that of the ocean mosaic's faces, in the order of their first sides. All amounts are whole numbers of
/// units of their own, none negative: heat on the project's scale, water, vapour and ice in units of water, and salt.
#[derive(Drop)]
pub struct Whole {
    /// Seconds since the namelist's `current_date`.
    pub elapsed: i64,
    /// Heat of the air, that of its vapour with it: Ca numbers.
    pub air_heat: List<i64>,
    /// Vapour of the air: Ca numbers.
    pub air_vapour: List<i64>,
    /// Heat that the sun sends to each cell of the air in a fast step, before the strength of the month: Ca numbers.
    pub air_sun: List<i64>,
    /// Heat of the land, that of its water with it: Cl numbers.
    pub land_heat: List<i64>,
    /// Water of the land: Cl numbers.
    pub land_water: List<i64>,
    /// Parts of the area of each cell of the ocean's mosaic, open water and then each category, 65536 in all where the cell has an
    /// area: (K + 1) * Co numbers, by cells.
    pub parts: List<i64>,
    /// Ice of each category: K * Co numbers, by cells.
    pub ice: List<i64>,
    /// Heat of each category: K * Co numbers, by cells.
    pub ice_heat: List<i64>,
    /// Water of the ocean: L * Co numbers, by layers, the top one first.
    pub water: List<i64>,
    /// Heat of the ocean: L * Co numbers, by layers.
    pub heat: List<i64>,
    /// Salt of the ocean: L * Co numbers, by layers.
    pub salt: List<i64>,
    /// Speeds of the water through the faces of the ocean mosaic, above 0 from the first side to the second, -2^40 to 2^40, and 0
    /// where a side's cell is dry: L * F numbers, by layers.
    pub faces: List<i64>,
    /// What has left the ocean and the ice has not taken yet: frazil water, frazil heat, skin water, skin heat and skin salt of
    /// each cell, 5 * Co numbers, by cells.
    pub to_ice: List<i64>,
    /// What has left the ice and the ocean has not added yet: water, heat and salt of each cell, 3 * Co numbers, by cells.
    pub to_ocean: List<i64>,
}

/// The state within a coupling step: beside the undivided state each cell of the ocean's mosaic has the skin, by which the air
/// sees open water, and the frazil, which has not joined the ice yet. Each list has a number for each of the Co cells.
#[derive(Drop)]
pub struct Mid {
    pub whole: Whole,
    pub skin_water: List<i64>,
    pub skin_heat: List<i64>,
    pub skin_salt: List<i64>,
    pub frazil_water: List<i64>,
    pub frazil_heat: List<i64>,
}
