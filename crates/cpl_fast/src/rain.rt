// Rain on the elements of a list.
ghost use Rattle.std.specs.Prelude.{◌≡◌, ◌≢◌, ℕ, ◌*◌, ◌<◌, ◌≤◌, length, map};
ghost use Rattle.std.specs.List.{range_with_len};
ghost use Rattle.cpl_fixed.specs.Amounts.{IsAmount, at};
ghost use Rattle.cpl_fixed.specs.Totals.{total_of};
ghost use Rattle.cpl_fast.specs.Flows.{IsInCell, flow_at, link_at, sky_at};
ghost use Rattle.cpl_fast.specs.Places.{place_in};
ghost use Rattle.cpl_fast.specs.Rain.{AreDry, rain_on_row, rained_on};
ghost use Rattle.cpl_fast.specs.Sums.{AreClear, FitFlows, IsClear, IsSmall};

use crate::flows::{Flow, Sky, Tables};

// Rain on the elements of a row, from a cell of the air with this rain and this area. Those of the area 0 aren't looked at. The result
// is the rain on all of them.
fn row_rain(rain: i64, area: i64, tables: &Tables, row: usize, flows: &mut [Flow]) -> i128
    requires rain { IsAmount rain }
    requires can { (k : ℕ) → k < tables.now.width → IsInCell area tables.now row k }
    requires row { row < length tables.now.links.items }
    requires some { 0 < tables.now.width }
    requires fit { FitFlows tables.now flows.old }
    requires clear { IsClear tables.now flows.old row }
    ensures row { (k : ℕ) → k < tables.now.width → flow_at flows.new (place_in (length tables.now.links.items) row k) ≡ rained_on rain area tables.now flows.old row k }
    ensures others { (r k : ℕ) → r < length tables.now.links.items → r ≢ row
        → flow_at flows.new (place_in (length tables.now.links.items) r k) ≡ flow_at flows.old (place_in (length tables.now.links.items) r k) }
    ensures rain { result ≡ rain_on_row rain area tables.now row }
    ensures small { IsSmall 6 result }
{
    let mut sum = 0i128;
    let mut portions = tables.portions(row, rain, area);
    for k in 0..tables.used(row) {
        let b = tables.area(row, k);
        if b != 0 {
            let share = portions.next(b);
            flows[tables.place(row, k)].rain = share;
            sum += i128::from(share);
        }
    }
    sum
}

// Rain on the elements of all rows of a list, which were dry. A row whose cell of the air has no rain is passed over. The result is the
// rain on all elements.
pub(crate) fn list_rain(skies: &[Sky], rain: &[i64], tables: &Tables, flows: &mut [Flow]) -> i128
    requires airs { (row : ℕ) → row < length tables.now.links.items → (link_at tables.now.links.items row).air < length skies.now }
    requires rains { (n : ℕ) → n < length skies.now → IsAmount (at rain.now n) }
    requires count { length rain.now ≡ length skies.now }
    requires can { (row k : ℕ) → row < length tables.now.links.items → k < tables.now.width → IsInCell (sky_at skies.now (link_at tables.now.links.items row).air).air.area tables.now row k }
    requires some { 0 < tables.now.width }
    requires fit { FitFlows tables.now flows.old }
    requires few { length tables.now.links.items ≤ 1_048_576 }
    requires clear { AreClear tables.now flows.old }
    requires dry { AreDry tables.now flows.old }
    ensures flows { (row k : ℕ) → row < length tables.now.links.items → k < tables.now.width
        → flow_at flows.new (place_in (length tables.now.links.items) row k)
        ≡ rained_on (at rain.now (link_at tables.now.links.items row).air) (sky_at skies.now (link_at tables.now.links.items row).air).air.area tables.now flows.old row k }
    ensures rain { result ≡ total_of (map (λ row. rain_on_row (at rain.now (link_at tables.now.links.items row).air) (sky_at skies.now (link_at tables.now.links.items row).air).air.area tables.now row) (range_with_len 0 (length tables.now.links.items))) }
    ensures small { IsSmall (6 * length tables.now.links.items) result }
{
    let mut sum = 0i128;
    for row in 0..tables.links.len() {
        let air = tables.link(row).air as usize;
        if rain[air] != 0 {
            sum += row_rain(rain[air], skies[air].air.area, tables, row, flows);
        }
    }
    sum
}
