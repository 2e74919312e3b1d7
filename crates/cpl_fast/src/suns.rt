// The sun that the elements of a list absorb. It changes neither with the air nor with the surface within a coupling step, so that it is
// computed once for all fast steps of one.
ghost use Rattle.std.specs.Prelude.{◌≡◌, ◌≢◌, ℕ, ◌<◌, length, pos, ◌-ℤ◌, ◌≤ℤ◌};
ghost use Rattle.cpl_fixed.specs.Amounts.{IsAmount, at};
ghost use Rattle.cpl_fixed.specs.Ranges.{AreRates, IsFromℤ};
ghost use Rattle.cpl_fixed.specs.Shares.{part_of};
ghost use Rattle.cpl_state.specs.FastStep.{albedo};
ghost use Rattle.cpl_fast.specs.Flows.{ArePortions, IsInCell, before_in, flow_at, link_at};
ghost use Rattle.cpl_fast.specs.Places.{place_in};
ghost use Rattle.cpl_fast.specs.Sums.{AreClear, AreStill, FitFlows, IsClear, IsStill};
ghost use Rattle.cpl_fast.specs.Suns.{only_sun, sun_in};

use crate::flows::{Flow, NO_FLOW, Tables};
use crate::numbers::part_of;
use crate::portions::Portions;
use cpl_fixed::Rates;
use cpl_xgrid::Surface;

// Nothing flows through the elements of a row any more. Those of the area 0 aren't looked at: nothing flowed through them.
fn row_still(tables: &Tables, row: usize, flows: &mut [Flow])
    requires fit { FitFlows tables.now flows.old }
    requires row { row < length tables.now.links.items }
    requires clear { IsClear tables.now flows.old row }
    ensures row { IsStill tables.now flows.new row }
    ensures others { (r k : ℕ) → r < length tables.now.links.items → r ≢ row
        → flow_at flows.new (place_in (length tables.now.links.items) r k) ≡ flow_at flows.old (place_in (length tables.now.links.items) r k) }
{
    for k in 0..tables.used(row) {
        if tables.area(row, k) != 0 {
            flows[tables.place(row, k)] = NO_FLOW;
        }
    }
}

// Nothing flows through the elements of a list any more.
pub(crate) fn list_still(tables: &Tables, flows: &mut [Flow])
    requires fit { FitFlows tables.now flows.old }
    requires clear { AreClear tables.now flows.old }
    ensures { AreStill tables.now flows.new }
{
    for row in 0..tables.links.len() {
        row_still(tables, row, flows);
    }
}

// What the k-th part of a cell throws back of the sun.
#[inline]
fn albedo(rates: &Rates, list: Surface, k: usize) -> i64
    requires { AreRates rates.now }
    ensures value { result ≡ albedo rates.now list k }
    ensures range { IsFromℤ 0 1_000 result }
{
    match list {
        Surface::Land => rates.land_albedo,
        Surface::Ocean if k == 0 => rates.water_albedo,
        Surface::Ocean => rates.ice_albedo,
    }
}

// What is left of a share of the sun where this is thrown back.
#[inline]
fn kept(share: i64, albedo: i64) -> i64
    requires share { IsAmount share }
    requires albedo { IsFromℤ 0 1_000 albedo }
    ensures { result ≡ part_of share (pos 1_000 -ℤ albedo) (pos 1_000) }
{
    part_of(share, 1_000 - albedo, 1_000)
}

// The sun that the elements of a row absorb, of which these are the shares from its first element on: their amount is the sun on its cell
// of the air, and their whole the cell's area. Elements of the area 0 aren't looked at. Behind the row the shares go on.
fn row_suns(
    rates: &Rates,
    list: Surface,
    portions: &mut Portions,
    tables: &Tables,
    row: usize,
    flows: &mut [Flow],
)
    requires rates { AreRates rates.now }
    requires portions { ArePortions portions.old }
    requires from { portions.old.from ≡ before_in tables.now row 0 }
    requires can { (k : ℕ) → k < tables.now.width → IsInCell portions.old.whole tables.now row k }
    requires row { row < length tables.now.links.items }
    requires some { 0 < tables.now.width }
    requires fit { FitFlows tables.now flows.old }
    requires clear { IsStill tables.now flows.old row }
    ensures row { (k : ℕ) → k < tables.now.width → flow_at flows.new (place_in (length tables.now.links.items) row k) ≡ only_sun (sun_in rates.now list portions.old.amount portions.old.whole tables.now row k) }
    ensures others { (r k : ℕ) → r < length tables.now.links.items → r ≢ row
        → flow_at flows.new (place_in (length tables.now.links.items) r k) ≡ flow_at flows.old (place_in (length tables.now.links.items) r k) }
    ensures portions { ArePortions portions.new }
    ensures amount { portions.new.amount ≡ portions.old.amount }
    ensures whole { portions.new.whole ≡ portions.old.whole }
{
    for k in 0..tables.used(row) {
        let b = tables.area(row, k);
        if b != 0 {
            let share = portions.next(b);
            let absorbed = kept(share, albedo(rates, list, k));
            flows[tables.place(row, k)].sun = absorbed;
        }
    }
}

// The sun that the elements of a list absorb, where nothing flows yet: by the sun on the cells of the air, of this strength in the month,
// and by their areas. Where a row follows another of its cell, the shares of the sun go on from there, which saves divisions.
pub(crate) fn list_suns(
    rates: &Rates,
    list: Surface,
    strength: i64,
    sun: &[i64],
    area: &[i64],
    tables: &Tables,
    flows: &mut [Flow],
)
    requires rates { AreRates rates.now }
    requires strength { pos 0 ≤ℤ strength }
    requires airs { (row : ℕ) → row < length tables.now.links.items → (link_at tables.now.links.items row).air < length sun.now }
    requires least { (n : ℕ) → n < length sun.now → pos 0 ≤ℤ at sun.now n }
    requires most { (n : ℕ) → n < length sun.now → IsAmount (part_of (at sun.now n) strength (pos 1_000)) }
    requires count { length area.now ≡ length sun.now }
    requires can { (row k : ℕ) → row < length tables.now.links.items → k < tables.now.width → IsInCell (at area.now (link_at tables.now.links.items row).air) tables.now row k }
    requires some { 0 < tables.now.width }
    requires fit { FitFlows tables.now flows.old }
    requires still { AreStill tables.now flows.old }
    ensures { (row k : ℕ) → row < length tables.now.links.items → k < tables.now.width
        → flow_at flows.new (place_in (length tables.now.links.items) row k)
        ≡ only_sun (sun_in rates.now list (part_of (at sun.now (link_at tables.now.links.items row).air) strength (pos 1_000)) (at area.now (link_at tables.now.links.items row).air) tables.now row k) }
{
    // The shares of no cell's sun yet.
    let mut last = sun.len();
    let mut portions = Portions::new(0, 0, 1);
    for row in 0..tables.links.len() {
        let link = tables.link(row);
        let air = link.air as usize;
        if air != last || link.before != portions.from {
            let sun = part_of(sun[air], strength, 1_000);
            portions = tables.portions(row, sun, area[air]);
            last = air;
        }
        row_suns(rates, list, &mut portions, tables, row, flows);
    }
}
