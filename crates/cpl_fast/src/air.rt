// The air after its elements have given and taken, before it diffuses.
ghost use Rattle.std.specs.Prelude.{◌≡◌, ℕ, ◌<◌, ◌≤◌, ◌^◌, length, map, pos, ◌-ℤ◌, ◌*ℤ◌, ◌≤ℤ◌};
ghost use Rattle.std.specs.List.{range_with_len};
ghost use Rattle.cpl_fixed.specs.Amounts.{IsAmount, at};
ghost use Rattle.cpl_fixed.specs.Ranges.{AreRates, IsFromℤ};
ghost use Rattle.cpl_fixed.specs.Shares.{part_of};
ghost use Rattle.cpl_fixed.specs.Totals.{total_of};
ghost use Rattle.cpl_fixed.specs.declared.limits.TheConstants.{MOST_AREA, MOST_CELLS, WATER_HEAT};
ghost use Rattle.cpl_mosaic.specs.Contacts.{cells_of};
ghost use Rattle.cpl_flux.specs.Elements.{IsAirSide};
ghost use Rattle.cpl_fast.specs.Flows.{sky_at};
ghost use Rattle.cpl_fast.specs.Sums.{AreSmall, FitTables, IsSmall};
ghost use Rattle.cpl_fast.specs.Air.{CanRain, after_rain, moist, rain_of, rained, rained_at, warm};

use crate::flows::Sky;
use crate::numbers::part_of;
use crate::sums::{FlowLists, Sums, air_sums, gained, net_heat};
use cpl_fixed::{Rates, WATER_HEAT};
use cpl_flux::AirSide;
use cpl_xgrid::XGrid;

/// A cell of the air after it has rained, with its rain and the heat that it gave to space.
#[derive(Clone, Copy)]
pub struct Rained {
    pub heat: i64,
    pub vapour: i64,
    pub rain: i64,
    pub space: i64,
}

// The rain of a cell of the air with this heat and this vapour.
fn rain_of(rates: &Rates, area: i64, heat: i64, vapour: i64) -> i64
    requires rates { AreRates rates.now }
    requires area { IsFromℤ 1 MOST_AREA area }
    requires heat { IsAmount heat }
    requires vapour { IsAmount vapour }
    ensures value { result ≡ rain_of rates.now area heat vapour }
    ensures range { IsAmount result }
    ensures vapour { result ≤ℤ vapour }
    ensures heat { (WATER_HEAT *ℤ result) ≤ℤ heat }
{
    let dry = rates.rc as u64 * area as u64;
    let surplus = (vapour as u64).saturating_sub(dry) / 2;
    surplus.min(heat as u64 / (8 * WATER_HEAT as u64)) as i64
}

// The heat that a cell of the air gives to space.
fn space_of(rates: &Rates, heat: i64) -> i64
    requires rates { AreRates rates.now }
    requires heat { IsAmount heat }
    ensures value { result ≡ part_of heat rates.now.ko (pos 1_048_576) }
    ensures range { IsAmount result }
{
    part_of(heat, rates.ko, 1_048_576)
}

// The heat of a cell of the air before it rains.
fn warmed(heat: i64, net: i128, space: i64) -> i64
    requires heat { IsAmount heat }
    requires net { IsSmall (2 ^ 43) net }
    requires space { IsAmount space }
    requires range { IsAmount (heat -ℤ net -ℤ space) }
    ensures value { result ≡ heat -ℤ net -ℤ space }
    ensures range { IsAmount result }
{
    gained(heat, -net - i128::from(space))
}

// The cell after it has rained.
fn after_rain(heat: i64, vapour: i64, rain: i64, space: i64) -> Rained
    requires heat { IsAmount heat }
    requires vapour { IsAmount vapour }
    requires rain { IsAmount rain }
    requires space { IsAmount space }
    requires of_heat { (WATER_HEAT *ℤ rain) ≤ℤ heat }
    requires of_vapour { rain ≤ℤ vapour }
    ensures { result ≡ after_rain heat vapour rain space }
{
    Rained {
        heat: heat - WATER_HEAT * rain,
        vapour: vapour - rain,
        rain,
        space,
    }
}

/// A cell of the air after a fast step but for the diffusion, by the sums of the flows through its elements.
pub fn let_rain(rates: &Rates, air: &AirSide, sums: &Sums) -> Rained
    requires rates { AreRates rates.now }
    requires air { IsAirSide air.now }
    requires small { AreSmall (2 ^ 30) sums.now }
    requires heat { IsAmount (warm rates.now air.now sums.now) }
    requires vapour { IsAmount (moist air.now sums.now) }
    ensures value { result ≡ rained rates.now air.now sums.now }
    ensures rain { IsAmount result.rain }
    ensures space { IsAmount result.space }
{
    let space = space_of(rates, air.heat);
    let heat = warmed(air.heat, net_heat(sums), space);
    let vapour = gained(air.vapour, sums.water);
    let rain = rain_of(rates, air.area, heat, vapour);
    after_rain(heat, vapour, rain, space)
}

// Cell n of the air after it has rained.
#[inline]
fn air_cell(rates: &Rates, xgrid: &XGrid, air: &AirSide, flows: &FlowLists, n: u32) -> Rained
    requires rates { AreRates rates.now }
    requires cell { n < cells_of xgrid.now.air }
    requires fit { FitTables flows.now }
    requires can { CanRain rates.now xgrid.now air.now flows.now n }
    ensures value { result ≡ rained_at rates.now xgrid.now air.now flows.now n }
    ensures space { IsAmount result.space }
{
    let sums = air_sums(xgrid.cells_of_air(n), flows);
    let_rain(rates, air, &sums)
}

// The heat, the vapour and the rain of all cells of the air, and the heat to space.
pub(crate) fn air_lists(
    rates: &Rates,
    xgrid: &XGrid,
    skies: &[Sky],
    flows: &FlowLists,
    heat: &mut [i64],
    vapour: &mut [i64],
    rain: &mut [i64],
) -> i128
    requires rates { AreRates rates.now }
    requires cells { length skies.now ≡ cells_of xgrid.now.air }
    requires few { length skies.now ≤ MOST_CELLS }
    requires fit { FitTables flows.now }
    requires can { (n : ℕ) → n < length skies.now → CanRain rates.now xgrid.now (sky_at skies.now n).air flows.now n }
    requires heat { length heat.old ≡ length skies.now }
    requires vapour { length vapour.old ≡ length skies.now }
    requires rain { length rain.old ≡ length skies.now }
    ensures heat { (n : ℕ) → n < length skies.now → at heat.new n ≡ (rained_at rates.now xgrid.now (sky_at skies.now n).air flows.now n).heat }
    ensures vapour { (n : ℕ) → n < length skies.now → at vapour.new n ≡ (rained_at rates.now xgrid.now (sky_at skies.now n).air flows.now n).vapour }
    ensures rain { (n : ℕ) → n < length skies.now → at rain.new n ≡ (rained_at rates.now xgrid.now (sky_at skies.now n).air flows.now n).rain }
    ensures space { result ≡ total_of (map (λ n. (rained_at rates.now xgrid.now (sky_at skies.now n).air flows.now n).space) (range_with_len 0 (length skies.now))) }
{
    let mut left = 0i128;
    for n in 0..skies.len() {
        let after = air_cell(rates, xgrid, &skies[n].air, flows, n as u32);
        heat[n] = after.heat;
        vapour[n] = after.vapour;
        rain[n] = after.rain;
        left += i128::from(after.space);
    }
    left
}
