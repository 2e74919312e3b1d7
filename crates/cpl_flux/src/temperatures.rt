// Temperatures and humidity.
ghost use Rattle.std.specs.Prelude.{◌≡◌, ◌*◌, ◌≤◌, ◌^◌};
ghost use Rattle.cpl_fixed.specs.Ranges.{AreRates};
ghost use Rattle.cpl_flux.specs.Elements.{IsAirSide, IsPart};
ghost use Rattle.cpl_flux.specs.Temperatures.{AreTemperatures, air_temperature, humidity, land_temperature, part_temperature, temperature, weather, ice_temperature, water_temperature};

use crate::parts::{AirSide, Kind, Part, Weather};
use cpl_fixed::{MELT_HEAT, MOST_TOTAL, Rates, VAPOUR_HEAT, quotient};

/// Freezing, in millikelvin.
pub const FREEZING: u32 = 273_000;
/// The highest temperature, in millikelvin.
pub const HOTTEST: u32 = 400_000;
/// The highest humidity.
pub const MOST_HUMIDITY: u32 = 1_600;

// What the heat gives in millikelvin where each kelvin takes the capacity.
fn temperature(heat: u64, capacity: u128) -> u32
    requires heat { heat ≤ MOST_TOTAL }
    ensures value { result ≡ temperature heat capacity }
    ensures most { result ≤ HOTTEST }
{
    if capacity == 0 {
        FREEZING
    } else {
        quotient(1_000 * u128::from(heat), capacity).min(u128::from(HOTTEST)) as u32
    }
}

/// The temperature of a cell of the air in millikelvin, 0 to 400000: its heat beyond that of its vapour, over its area. The
/// formula is defined by this project.
pub fn air_temperature(rates: &Rates, air: &AirSide) -> u32
    requires rates { AreRates rates.now }
    requires air { IsAirSide air.now }
    ensures value { result ≡ air_temperature rates.now air.now }
    ensures most { result ≤ HOTTEST }
{
    let vapour = u128::from(VAPOUR_HEAT as u64) * u128::from(air.vapour as u64);
    let dry = u128::from(air.heat as u64).saturating_sub(vapour) as u64;
    temperature(
        dry,
        u128::from(rates.ca as u64) * u128::from(air.area as u64),
    )
}

/// The humidity of a cell of the air, 0 to 1600: its vapour over its area, by the rate `hs`. The formula is defined by this
/// project.
pub fn humidity(rates: &Rates, air: &AirSide) -> u32
    requires rates { AreRates rates.now }
    requires air { IsAirSide air.now }
    ensures value { result ≡ humidity rates.now air.now }
    ensures most { result ≤ MOST_HUMIDITY }
{
    let product = u128::from(air.vapour as u64) * u128::from(rates.hs as u64);
    let each = quotient(product, u128::from(air.area as u64));
    each.min(u128::from(MOST_HUMIDITY)) as u32
}

/// Both of a cell of the air, which its elements share.
pub fn weather(rates: &Rates, air: &AirSide) -> Weather
    requires rates { AreRates rates.now }
    requires air { IsAirSide air.now }
    ensures { result ≡ weather rates.now air.now }
{
    Weather {
        temperature: air_temperature(rates, air),
        humidity: humidity(rates, air),
    }
}

// Land's temperature.
fn land_temperature(rates: &Rates, part: &Part) -> u32
    requires rates { AreRates rates.now }
    requires part { IsPart part.now }
    ensures value { result ≡ land_temperature rates.now part.now }
    ensures most { result ≤ HOTTEST }
{
    let ground = u128::from(rates.cl as u64) * u128::from(part.area as u64);
    temperature(part.heat as u64, ground + 4 * u128::from(part.mass as u64))
}

// Open water's temperature.
fn water_temperature(part: &Part) -> u32
    requires part { IsPart part.now }
    ensures value { result ≡ water_temperature part.now }
    ensures most { result ≤ HOTTEST }
{
    let melting = u128::from(MELT_HEAT as u64) * u128::from(part.mass as u64);
    let warm = u128::from(part.heat as u64).saturating_sub(melting) as u64;
    temperature(warm, 4 * u128::from(part.mass as u64))
}

// The ice's temperature.
fn ice_temperature(part: &Part) -> u32
    requires part { IsPart part.now }
    ensures value { result ≡ ice_temperature part.now }
    ensures most { result ≤ HOTTEST }
{
    FREEZING.min(temperature(part.heat as u64, 4 * u128::from(part.mass as u64)))
}

/// The temperature of a part of the surface in millikelvin, 0 to 400000. The formulas are defined by this project.
pub fn part_temperature(rates: &Rates, part: &Part) -> u32
    requires rates { AreRates rates.now }
    requires part { IsPart part.now }
    ensures value { result ≡ part_temperature rates.now part.now }
    ensures most { result ≤ HOTTEST }
{
    match part.kind {
        Kind::Land => land_temperature(rates, part),
        Kind::Water => water_temperature(part),
        Kind::Ice => ice_temperature(part),
    }
}

/// Freezing, the hottest temperature and the greatest humidity are the numbers that the model gives.
pub fn temperatures_law()
    ensures { AreTemperatures }
{}
