// What flows through the elements of a list.
ghost use Rattle.std.specs.Prelude.{◌≡◌, ◌≢◌, ℕ, ◌+◌, ◌*◌, ◌<◌, ◌≤◌, length};
ghost use Rattle.cpl_fixed.specs.Amounts.{IsAmount};
ghost use Rattle.cpl_fixed.specs.Ranges.{AreRates};
ghost use Rattle.cpl_flux.specs.Elements.{IsPart, IsElement};
ghost use Rattle.cpl_fast.specs.Rain.{in_list};
ghost use Rattle.cpl_fast.specs.Sums.{AreClear, AreSmall, FitFlows, IsClear, SumsAre};
ghost use Rattle.cpl_fast.specs.Flows.{ArePortions, AreUsed, CanFlow, IsInCell, IsSky, area_in, before_in, flow_again, flow_at, flow_in, flow_through, link_at, sky_of};
ghost use Rattle.cpl_fast.specs.PartLists.{HaveCounts};
ghost use Rattle.cpl_fast.specs.Places.{place_in, used_at};

use crate::layout::place_in;
use crate::part_lists::PartLists;
use crate::portions::Portions;
use crate::sums::{Sums, row_sums};
use cpl_fixed::Rates;
use cpl_flux::{AirSide, Part, Weather, element_between, part_temperature};

/// A cell of the air before the step, with what all its elements see of it: its weather.
#[derive(Clone, Copy)]
pub struct Sky {
    pub air: AirSide,
    pub weather: Weather,
}

/// What flows through an element in a fast step: heat from the air to the surface, water from the surface to the air, the sun that
/// the surface absorbs, and rain.
#[derive(Clone, Copy)]
pub struct Flow {
    pub heat: i64,
    pub water: i64,
    pub sun: i64,
    pub rain: i64,
}

// Nothing flows.
pub(crate) const NO_FLOW: Flow = Flow {
    heat: 0,
    water: 0,
    sun: 0,
    rain: 0,
};

/// An exchange cell: the numbers of its cells in the air and on the surface, and the area of those before it in its cell of the air.
#[derive(Clone, Copy)]
pub struct Link {
    pub air: u32,
    pub surface: u32,
    pub before: i64,
}

/// The exchange cells of a list: their links, and the areas of their elements, part by part. Each row has `width` elements. For each
/// row `used` has how many of the first ones are looked at: no further one has an area.
#[derive(Drop)]
pub struct Tables {
    pub(crate) width: usize,
    pub(crate) links: Vec<Link>,
    pub(crate) areas: Vec<i64>,
    pub(crate) used: Vec<u8>,
}

impl Tables {
    // A row's link.
    #[inline]
    pub(crate) fn link(&self, row: usize) -> Link
        requires { row < length self.now.links.items }
        ensures { result ≡ link_at self.now.links.items row }
    {
        self.links[row]
    }

    // The area of the k-th element of a row.
    #[inline]
    pub(crate) fn area(&self, row: usize, k: usize) -> i64
        requires row { row < length self.now.links.items }
        requires element { k < self.now.width }
        requires areas { length self.now.areas.items ≡ length self.now.links.items * self.now.width }
        ensures { result ≡ area_in self.now row k }
    {
        self.areas[self.place(row, k)]
    }

    // How many of a row's first elements are looked at.
    #[inline]
    pub(crate) fn used(&self, row: usize) -> usize
        requires row { row < length self.now.links.items }
        requires used { AreUsed self.now }
        ensures value { result ≡ used_at self.now.used.items row }
        ensures most { result ≤ self.now.width }
    {
        self.used[row] as usize
    }

    // Where its flow stands.
    #[inline]
    pub(crate) fn place(&self, row: usize, k: usize) -> usize
        requires row { row < length self.now.links.items }
        requires element { k < self.now.width }
        requires areas { length self.now.areas.items ≡ length self.now.links.items * self.now.width }
        ensures value { result ≡ place_in (length self.now.links.items) row k }
        ensures within { result < length self.now.links.items * self.now.width }
    {
        place_in(self.links.len(), row, k)
    }

    // The shares of an amount over the elements of a row, from its first on, where its cell of the air has this area.
    #[inline]
    pub(crate) fn portions(&self, row: usize, amount: i64, area: i64) -> Portions
        requires amount { IsAmount amount }
        requires cell { IsInCell area self.now row 0 }
        requires row { row < length self.now.links.items }
        ensures portions { ArePortions result }
        ensures amount { result.amount ≡ amount }
        ensures whole { result.whole ≡ area }
        ensures from { result.from ≡ before_in self.now row 0 }
    {
        Portions::new(amount, self.link(row).before, area)
    }
}

/// What flows through an element of the area `b` on this part of the surface that absorbs this sun, before it rains.
#[inline]
pub fn flow_through(rates: &Rates, sky: &Sky, part: &Part, b: i64, sun: i64) -> Flow
    requires rates { AreRates rates.now }
    requires sky { IsSky sky.now }
    requires part { IsPart part.now }
    requires element { IsElement sky.now.air part.now b }
    ensures { result ≡ flow_through rates.now sky.now part.now b sun }
{
    let temperature = part_temperature(rates, part);
    let flux = element_between(rates, &sky.air, sky.weather, part, temperature, b);
    Flow {
        heat: flux.heat,
        water: flux.water,
        sun,
        rain: 0,
    }
}

// What flows through the k-th element of a row that absorbs this sun, before it rains.
#[inline]
fn element_flow(
    rates: &Rates,
    sky: &Sky,
    tables: &Tables,
    parts: &PartLists,
    row: usize,
    k: usize,
    sun: i64,
) -> Flow
    requires rates { AreRates rates.now }
    requires can { CanFlow sky.now tables.now parts.now row k }
    requires row { row < length tables.now.links.items }
    requires element { k < tables.now.width }
    requires areas { length tables.now.areas.items ≡ length tables.now.links.items * tables.now.width }
    requires parts { HaveCounts parts.now }
    requires cell { (link_at tables.now.links.items row).surface < length parts.now.heat.now }
    requires width { tables.now.width ≡ parts.now.categories + 1 }
    ensures { result ≡ flow_in rates.now sky.now tables.now parts.now row k sun }
{
    let b = tables.area(row, k);
    let part = parts.part(tables.link(row).surface as usize, k);
    flow_through(rates, sky, &part, b, sun)
}

// What flows through the elements of a row, before it rains. The sun that they absorb stands. Those of the area 0 are passed over:
// nothing flows through them.
fn row_flows(
    rates: &Rates,
    sky: &Sky,
    tables: &Tables,
    parts: &PartLists,
    row: usize,
    flows: &mut [Flow],
)
    requires rates { AreRates rates.now }
    requires can { (k : ℕ) → k < tables.now.width → CanFlow sky.now tables.now parts.now row k }
    requires fit { FitFlows tables.now flows.old }
    requires row { row < length tables.now.links.items }
    requires parts { HaveCounts parts.now }
    requires cell { (link_at tables.now.links.items row).surface < length parts.now.heat.now }
    requires width { tables.now.width ≡ parts.now.categories + 1 }
    requires clear { IsClear tables.now flows.old row }
    ensures row { (k : ℕ) → k < tables.now.width → flow_at flows.new (place_in (length tables.now.links.items) row k) ≡ flow_again rates.now sky.now tables.now parts.now flows.old row k }
    ensures others { (r k : ℕ) → r < length tables.now.links.items → r ≢ row
        → flow_at flows.new (place_in (length tables.now.links.items) r k) ≡ flow_at flows.old (place_in (length tables.now.links.items) r k) }
{
    for k in 0..tables.used(row) {
        if tables.area(row, k) != 0 {
            let place = tables.place(row, k);
            let flow = element_flow(rates, sky, tables, parts, row, k, flows[place].sun);
            flows[place] = flow;
        }
    }
}

/// What flows through the elements of all rows of a list, before it rains, where its surface has these parts. The sun that they absorb
/// stands. It returns the sums over all of them.
pub(crate) fn list_flows(
    rates: &Rates,
    skies: &[Sky],
    tables: &Tables,
    parts: &PartLists,
    flows: &mut [Flow],
) -> Sums
    requires rates { AreRates rates.now }
    requires airs { (row : ℕ) → row < length tables.now.links.items → (link_at tables.now.links.items row).air < length skies.now }
    requires cells { (row : ℕ) → row < length tables.now.links.items → (link_at tables.now.links.items row).surface < length parts.now.heat.now }
    requires can { (row k : ℕ) → row < length tables.now.links.items → k < tables.now.width → CanFlow (sky_of skies.now tables.now row) tables.now parts.now row k }
    requires fit { FitFlows tables.now flows.old }
    requires few { length tables.now.links.items ≤ 1_048_576 }
    requires parts { HaveCounts parts.now }
    requires width { tables.now.width ≡ parts.now.categories + 1 }
    requires clear { AreClear tables.now flows.old }
    ensures flows { (row k : ℕ) → row < length tables.now.links.items → k < tables.now.width
        → flow_at flows.new (place_in (length tables.now.links.items) row k) ≡ flow_again rates.now (sky_of skies.now tables.now row) tables.now parts.now flows.old row k }
    ensures sums { SumsAre result (in_list flows.new (length tables.now.links.items) tables.now.width) }
    ensures small { AreSmall (6 * length tables.now.links.items) result }
{
    let mut sums = Sums::none();
    for row in 0..tables.links.len() {
        let sky = &skies[tables.link(row).air as usize];
        row_flows(rates, sky, tables, parts, row, flows);
        sums.join(&row_sums(tables, flows, row));
    }
    sums
}
