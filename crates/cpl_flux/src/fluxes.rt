// What flows through an element.
ghost use Rattle.std.specs.Prelude.{◌≡◌, ◌*◌, ◌/◌, ◌≤◌, ◌<◌, min, pos, neg_ℤ, ◌*ℤ◌, ◌≤ℤ◌, ◌<ℤ◌};
ghost use Rattle.cpl_fixed.specs.Ranges.{AreRates};
ghost use Rattle.cpl_flux.specs.Elements.{IsAirSide, IsPart, IsElement, IsBounded, IsGiven, eighth, element, element_between, evaporation, heat_flux, wet_evaporation};
ghost use Rattle.cpl_flux.specs.declared.parts.Kind.TheVariants.{Ice};

use crate::parts::{AirSide, Flux, Kind, Part, Weather};
use crate::temperatures::{HOTTEST, part_temperature, weather};
use cpl_fixed::{MOST_AREA, MOST_TOTAL, Rates, VAPOUR_HEAT, at_most_share};

// What a difference drives through the area b, where the rate is in 2^-20.
#[inline]
fn driven(rate: u64, b: u64, difference: u32) -> u64
    requires rate { rate ≤ 1_048_576 }
    requires area { b ≤ MOST_AREA }
    requires difference { difference ≤ HOTTEST }
    ensures value { result ≡ rate * b * difference / 1_048_576 }
    ensures most { result ≤ MOST_TOTAL }
{
    (u128::from(rate * b) * u128::from(difference) / 1_048_576) as u64
}

// The same, and at most an eighth of what there is, for the area b of the whole.
#[inline]
fn given(rate: u64, b: u64, difference: u32, there: u64, whole: u64) -> u64
    requires rate { rate ≤ 1_048_576 }
    requires area { b ≤ MOST_AREA }
    requires difference { difference ≤ HOTTEST }
    requires whole { (0 < whole) × (whole ≤ MOST_AREA) }
    ensures value { result ≡ min (rate * b * difference / 1_048_576) (eighth there b whole) }
    ensures most { result ≤ MOST_TOTAL }
    ensures share { 8 * whole * result ≤ there * b }
{
    at_most_share(driven(rate, b, difference), there, b, 8 * whole)
}

// The heat from the air to the part, through an area that isn't 0.
#[inline]
fn heat_flux(rates: &Rates, air: &AirSide, part: &Part, b: i64, above: u32, below: u32) -> i64
    requires rates { AreRates rates.now }
    requires air { IsAirSide air.now }
    requires part { IsPart part.now }
    requires element { IsElement air.now part.now b }
    requires some { pos 0 <ℤ b }
    requires above { above ≤ HOTTEST }
    requires below { below ≤ HOTTEST }
    ensures value { result ≡ heat_flux rates.now air.now part.now b above below }
    ensures from_air { IsGiven air.now.heat air.now.area b result }
    ensures from_part { IsGiven part.now.heat part.now.area b (neg_ℤ result) }
{
    let (kh, area) = (rates.kh as u64, b as u64);
    if above >= below {
        given(kh, area, above - below, air.heat as u64, air.area as u64) as i64
    } else {
        -(given(kh, area, below - above, part.heat as u64, part.area as u64) as i64)
    }
}

// What evaporates from land or open water, through an area that isn't 0.
#[inline]
fn wet_evaporation(rates: &Rates, part: &Part, b: i64, dryness: u32) -> i64
    requires rates { AreRates rates.now }
    requires part { IsPart part.now }
    requires some { pos 0 <ℤ b }
    requires in_part { b ≤ℤ part.now.area }
    requires dryness { dryness ≤ HOTTEST }
    ensures value { result ≡ pos (wet_evaporation rates.now part.now b dryness) }
    ensures water { IsGiven part.now.mass part.now.area b result }
    ensures heat { IsGiven part.now.heat part.now.area b (VAPOUR_HEAT *ℤ result) }
{
    let (area, whole) = (b as u64, part.area as u64);
    let wet = given(rates.ke as u64, area, dryness, part.mass as u64, whole);
    at_most_share(
        wet,
        part.heat as u64,
        area,
        8 * (VAPOUR_HEAT as u64 * whole),
    ) as i64
}

// What evaporates, by the humidity and the temperature of the part, through an area that isn't 0.
#[inline]
fn evaporation(rates: &Rates, part: &Part, b: i64, humidity: u32, temperature: u32) -> i64
    requires rates { AreRates rates.now }
    requires part { IsPart part.now }
    requires some { pos 0 <ℤ b }
    requires in_part { b ≤ℤ part.now.area }
    requires temperature { temperature ≤ HOTTEST }
    ensures value { result ≡ pos (evaporation part.now.kind rates.now part.now b humidity temperature) }
    ensures water { IsGiven part.now.mass part.now.area b result }
    ensures heat { IsGiven part.now.heat part.now.area b (VAPOUR_HEAT *ℤ result) }
    ensures ice { part.now.kind ≡ Ice → result ≡ pos 0 }
{
    match part.kind {
        Kind::Ice => 0,
        Kind::Land | Kind::Water => {
            let saturation = temperature.saturating_sub(240_000) / 100;
            wet_evaporation(rates, part, b, saturation.saturating_sub(humidity))
        }
    }
}

/// What flows through the element of area `b` in a fast step, where the weather of the cell of the air and the temperature of the
/// part are known. Both sides are as before the step. The formulas are defined by this project.
#[inline]
pub fn element_between(
    rates: &Rates,
    air: &AirSide,
    weather: Weather,
    part: &Part,
    temperature: u32,
    b: i64,
) -> Flux
    requires rates { AreRates rates.now }
    requires air { IsAirSide air.now }
    requires part { IsPart part.now }
    requires element { IsElement air.now part.now b }
    requires weather { weather.temperature ≤ HOTTEST }
    requires temperature { temperature ≤ HOTTEST }
    ensures value { result ≡ element_between rates.now air.now weather part.now temperature b }
    ensures bounds { IsBounded air.now part.now b result }
{
    if b == 0 {
        return Flux { heat: 0, water: 0 };
    }
    Flux {
        heat: heat_flux(rates, air, part, b, weather.temperature, temperature),
        water: evaporation(rates, part, b, weather.humidity, temperature),
    }
}

/// What flows through the element of area `b` in a fast step. Both sides are as before the step.
pub fn element(rates: &Rates, air: &AirSide, part: &Part, b: i64) -> Flux
    requires rates { AreRates rates.now }
    requires air { IsAirSide air.now }
    requires part { IsPart part.now }
    requires element { IsElement air.now part.now b }
    ensures value { result ≡ element rates.now air.now part.now b }
    ensures bounds { IsBounded air.now part.now b result }
{
    element_between(
        rates,
        air,
        weather(rates, air),
        part,
        part_temperature(rates, part),
        b,
    )
}
