// The rates of the formulas.

/// The rates of the formulas of air, land, ice and ocean, as the namelist gives them. All are defined by this project.
#[derive(Clone, Copy, Debug, PartialEq, Eq)]
pub struct Rates {
    /// Heat that one unit of air area takes up for each kelvin, 1 to 2^20.
    pub ca: i64,
    /// Exchange of heat for each kelvin and unit of area, in 2^-20, 0 to 2^20.
    pub kh: i64,
    /// Evaporation for each unit of dryness and area, in 2^-20, 0 to 2^20.
    pub ke: i64,
    /// Humidity for each unit of vapour and area, 0 to 2^20.
    pub hs: i64,
    /// Heat to space in a fast step, in 2^-20 of the heat, 0 to 2^17.
    pub ko: i64,
    /// Vapour for each unit of area above which it rains, 0 to 2^20.
    pub rc: i64,
    /// The strength of the sun in each month, in thousandths, 0 to 4000.
    pub month: [i64; 12],
    /// Heat that one unit of land area takes up for each kelvin, 1 to 2^20.
    pub cl: i64,
    /// Water for each unit of land area above which it runs off, 0 to 2^20.
    pub cap: i64,
    /// What land throws back of the sun, in thousandths, 0 to 1000.
    pub land_albedo: i64,
    /// Frazil for each unit of area that closes the open water, 1 to 2^20.
    pub h0: i64,
    /// Ice for each unit of area at which a category passes into the next, 1 to 2^20.
    pub bounds: [i64; 4],
    /// What ice throws back of the sun, in thousandths, 0 to 1000.
    pub ice_albedo: i64,
    /// What open water throws back of the sun, in thousandths, 0 to 1000.
    pub water_albedo: i64,
    /// The drive of the ocean's faces is a difference of heights over 2^slope, 0 to 40.
    pub slope: u32,
    /// Neighbouring layers exchange a 2^-mix of their amounts in an ocean step, 2 to 40.
    pub mix: u32,
}
