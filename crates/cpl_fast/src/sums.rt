// Sums of flows.
ghost use Rattle.std.specs.Prelude.{◌≡◌, ℕ, ◌+◌, ◌*◌, ◌<◌, ◌≤◌, ◌^◌, ◌+ℤ◌, length, All};
ghost use Rattle.cpl_fixed.specs.Amounts.{IsAmount};
ghost use Rattle.cpl_fixed.specs.declared.limits.TheConstants.{MOST_EXCHANGE_CELLS};
ghost use Rattle.cpl_fast.specs.Sums.{AreSmall, FitFlows, FitTables, IsClear, IsSmallTaken, SumsAre, after, both_taken, in_list, in_part, in_row, in_rows, IsSmall, joined, net_heat, none, nothing, of_flow, reaches, taken, with_rain, within};

use crate::flows::{Flow, Tables};
use crate::layout::place_in;
use cpl_fixed::{VAPOUR_HEAT, WATER_HEAT};
use cpl_xgrid::{Surface, XRef};

/// Sums of the flows of elements.
#[derive(Clone, Copy)]
pub struct Sums {
    pub heat: i128,
    pub water: i128,
    pub sun: i128,
    pub rain: i128,
}

impl Sums {
    // The sums of no flow.
    pub(crate) fn none() -> Sums
        ensures { result ≡ none }
    {
        Sums {
            heat: 0,
            water: 0,
            sun: 0,
            rain: 0,
        }
    }

    // The sums of one flow.
    #[inline]
    fn of(flow: &Flow) -> Sums
        ensures value { result ≡ of_flow flow.now }
        ensures small { AreSmall 1 result }
    {
        Sums {
            heat: i128::from(flow.heat),
            water: i128::from(flow.water),
            sun: i128::from(flow.sun),
            rain: i128::from(flow.rain),
        }
    }

    // Adds the sums of further flows.
    #[inline]
    pub(crate) fn join(&mut self, other: &Sums)
        requires small { AreSmall (2 ^ 30) self.old }
        requires other { AreSmall (2 ^ 30) other.now }
        ensures value { self.new ≡ joined self.old other.now }
        ensures small { (m n : ℕ) → AreSmall m self.old → AreSmall n other.now → AreSmall (m + n) self.new }
    {
        self.heat += other.heat;
        self.water += other.water;
        self.sun += other.sun;
        self.rain += other.rain;
    }
}

// The sums over the elements of a row. Those of the area 0 aren't looked at. Here and below what a caller doesn't read isn't summed,
// where the call is inlined.
#[inline]
pub(crate) fn row_sums(tables: &Tables, flows: &[Flow], row: usize) -> Sums
    requires fit { FitFlows tables.now flows.now }
    requires row { row < length tables.now.links.items }
    requires clear { IsClear tables.now flows.now row }
    ensures value { SumsAre result (in_row flows.now (length tables.now.links.items) tables.now.width row) }
    ensures small { AreSmall tables.now.width result }
{
    let mut sums = Sums::none();
    for k in 0..tables.used(row) {
        if tables.area(row, k) != 0 {
            sums.join(&Sums::of(&flows[tables.place(row, k)]));
        }
    }
    sums
}

/// The sums over the elements of exchange cells in part `k`, where the list has so many rows, and the flows stand part by part.
#[inline]
pub fn part_sums(refs: &[XRef], flows: &[Flow], rows: usize, k: usize) -> Sums
    requires few { length refs.now ≤ MOST_EXCHANGE_CELLS }
    requires reach { All (reaches rows) refs.now }
    requires part { k * rows + rows ≤ length flows.now }
    ensures value { SumsAre result (in_part flows.now rows k refs.now) }
    ensures small { AreSmall (length refs.now) result }
{
    let mut sums = Sums::none();
    for xref in refs {
        sums.join(&Sums::of(&flows[place_in(rows, xref.row as usize, k)]));
    }
    sums
}

/// What flows through the elements of both lists, and the tables of the ocean's. A row of the land has one element.
#[derive(Clone, Copy)]
pub(crate) struct FlowLists<'a> {
    pub(crate) land: &'a [Flow],
    pub(crate) ocean: &'a [Flow],
    pub(crate) tables: &'a Tables,
}

// The sums over the elements of an exchange cell of either list.
#[inline]
fn list_sums(xref: XRef, flows: &FlowLists) -> Sums
    requires fit { FitTables flows.now }
    requires row { within flows.now xref }
    ensures value { SumsAre result (in_list flows.now xref.list xref.row) }
    ensures small { AreSmall 6 result }
{
    let row = xref.row as usize;
    match xref.list {
        Surface::Land => Sums::of(&flows.land[row]),
        Surface::Ocean => row_sums(flows.tables, flows.ocean, row),
    }
}

// The sums over all elements of exchange cells of both lists.
#[inline]
pub(crate) fn air_sums(refs: &[XRef], flows: &FlowLists) -> Sums
    requires few { length refs.now ≤ MOST_EXCHANGE_CELLS }
    requires fit { FitTables flows.now }
    requires rows { All (within flows.now) refs.now }
    ensures value { SumsAre result (in_rows flows.now refs.now) }
    ensures small { AreSmall (6 * length refs.now) result }
{
    let mut sums = Sums::none();
    for xref in refs {
        sums.join(&list_sums(*xref, flows));
    }
    sums
}

// The heat that flows to the surface, less that of the vapour that it gives.
pub(crate) fn net_heat(sums: &Sums) -> i128
    requires { AreSmall (2 ^ 30) sums.now }
    ensures value { result ≡ net_heat sums.now }
    ensures small { IsSmall (2 ^ 43) result }
{
    sums.heat - i128::from(VAPOUR_HEAT) * sums.water
}

/// What elements take from the air, beside the sun: heat, and water.
#[derive(Clone, Copy)]
pub struct Taken {
    pub heat: i128,
    pub water: i128,
}

impl Taken {
    // Nothing.
    pub(crate) fn none() -> Taken
        ensures { result ≡ nothing }
    {
        Taken { heat: 0, water: 0 }
    }

    // Adds what further elements take.
    pub(crate) fn add(&mut self, other: &Taken)
        requires small { IsSmallTaken (2 ^ 63) self.old }
        requires other { IsSmallTaken (2 ^ 46) other.now }
        ensures value { self.new ≡ both_taken self.old other.now }
        ensures small { (m n : ℕ) → IsSmallTaken m self.old → IsSmallTaken n other.now → IsSmallTaken (m + n) self.new }
    {
        self.heat += other.heat;
        self.water += other.water;
    }

    /// The same with rain, and with its heat.
    pub fn with_rain(self, rain: i128) -> Taken
        requires taken { IsSmallTaken (3 * 2 ^ 42) self }
        requires rain { IsSmall (2 ^ 30) rain }
        ensures value { result ≡ with_rain self rain }
        ensures small { IsSmallTaken (2 ^ 44) result }
    {
        Taken {
            heat: self.heat + i128::from(WATER_HEAT) * rain,
            water: self.water + rain,
        }
    }
}

/// What elements take from the air by the sums of their flows: heat, less that of the vapour, with that of the rain; rain, less the
/// vapour.
pub fn taken_by(sums: &Sums) -> Taken
    requires { AreSmall (2 ^ 30) sums.now }
    ensures value { result ≡ taken sums.now }
    ensures small { IsSmallTaken (3 * 2 ^ 42) result }
{
    Taken {
        heat: net_heat(sums) + i128::from(WATER_HEAT) * sums.rain,
        water: sums.rain - sums.water,
    }
}

/// An amount after a gain, below 0 where it loses, where it stays in range.
#[inline]
pub fn gained(old: i64, gain: i128) -> i64
    requires gain { IsSmall (2 ^ 46) gain }
    requires range { IsAmount (old +ℤ gain) }
    ensures value { result ≡ old +ℤ gain }
    ensures range { IsAmount result }
{
    (i128::from(old) + gain) as i64
}

/// A cell of a surface after a fast step, and what it took from the air.
#[derive(Clone, Copy)]
pub struct After {
    pub heat: i64,
    pub water: i64,
    pub taken: Taken,
}

/// A cell that takes this from the air and absorbs this sun.
pub fn gain(heat: i64, water: i64, taken: Taken, sun: i128) -> After
    requires taken { IsSmallTaken (2 ^ 45) taken }
    requires sun { IsSmall (2 ^ 30) sun }
    requires heat { IsAmount (heat +ℤ (taken.heat +ℤ sun)) }
    requires water { IsAmount (water +ℤ taken.water) }
    ensures { result ≡ after heat water taken sun }
{
    After {
        heat: gained(heat, taken.heat + sun),
        water: gained(water, taken.water),
        taken,
    }
}
