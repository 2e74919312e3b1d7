// What the ice takes from the ocean and gives back.

/// Water with its heat and its salt. None is negative.
#[derive(Clone, Copy, Debug, PartialEq, Eq)]
pub struct Salty {
    pub water: i64,
    pub heat: i64,
    pub salt: i64,
}

/// No water, no heat and no salt.
pub const NOTHING: Salty = Salty {
    water: 0,
    heat: 0,
    salt: 0,
};

/// The flight from the ocean to the ice: frazil with its heat, and the skin.
#[derive(Clone, Copy, Debug, PartialEq, Eq)]
pub struct ToIce {
    pub frazil_water: i64,
    pub frazil_heat: i64,
    pub skin: Salty,
}
