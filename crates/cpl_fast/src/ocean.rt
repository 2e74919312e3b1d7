// The skins and the categories of the ice after a fast step.
ghost use Rattle.std.specs.Prelude.{◌≡◌, ℕ, ◌+◌, ◌*◌, ◌<◌, ◌≤◌, ◌^◌, length, pos, ◌+ℤ◌, All};
ghost use Rattle.cpl_fixed.specs.Amounts.{IsAmount, at};
ghost use Rattle.cpl_fixed.specs.declared.limits.TheConstants.{MOST_EXCHANGE_CELLS};
ghost use Rattle.cpl_mosaic.specs.Contacts.{cells_of};
ghost use Rattle.cpl_xgrid.specs.Rows.{rows_of};
ghost use Rattle.cpl_xgrid.specs.declared.parts.Surface.TheVariants.{Ocean};
ghost use Rattle.cpl_fast.specs.Surfaces.{AreIceParts, AreRowsOf, CanGainIce, CanTakeIce, HasTakenIce, IsStill, category_gain, ice_of, ocean_at, refs_on, taken_to};
ghost use Rattle.cpl_fast.specs.Sums.{AreSmall, IsSmall, IsSmallTaken, after, none, reaches, sums_in, taken, with_rain};

use crate::flows::Flow;
use crate::layout::place_in;
use crate::sums::{After, Sums, Taken, gain, gained, part_sums, taken_by};
use cpl_xgrid::{Surface, XGrid, XRef};

// The sums of the flows of the open water over these exchange cells, which is part 0. Where its area is 0 they aren't looked at.
fn open_sums(xgrid: &XGrid, refs: &[XRef], flows: &[Flow], area: i64) -> Sums
    requires few { length refs.now ≤ MOST_EXCHANGE_CELLS }
    requires reach { All (reaches (length (rows_of xgrid.now Ocean))) refs.now }
    requires flows { length (rows_of xgrid.now Ocean) ≤ length flows.now }
    requires still { area ≡ pos 0 → sums_in flows.now (length (rows_of xgrid.now Ocean)) 0 refs.now ≡ none }
    ensures value { result ≡ sums_in flows.now (length (rows_of xgrid.now Ocean)) 0 refs.now }
    ensures small { AreSmall (2 ^ 20) result }
{
    if area == 0 {
        return Sums::none();
    }
    part_sums(refs, flows, xgrid.rows(Surface::Ocean).len(), 0)
}

/// What the categories of a cell gain: the rain on them, which goes to the skin, and the heat that they take beside the sun.
#[derive(Clone, Copy)]
pub struct IceTaken {
    pub rain: i128,
    pub heat: i128,
}

/// The parts of the ocean's mosaic, open water and then the categories: their areas, part by part, and how many of each cell are looked at.
#[derive(Clone, Copy)]
pub(crate) struct IceParts<'a> {
    pub(crate) categories: usize,
    pub(crate) area: &'a [i64],
    pub(crate) used: &'a [u8],
}

// The categories of cell n, whose exchange cells these are, gain heat. A category of the area 0 is passed over.
fn category_lists(
    xgrid: &XGrid,
    refs: &[XRef],
    flows: &[Flow],
    parts: &IceParts,
    n: usize,
    heat: &mut [i64],
) -> IceTaken
    requires cell { n < cells_of xgrid.now.ocean }
    requires refs { refs.now ≡ refs_on xgrid.now Ocean n }
    requires parts { AreIceParts (cells_of xgrid.now.ocean) parts.now.area.now parts.now.used.now parts.now.categories }
    requires rows { AreRowsOf Ocean xgrid.now flows.now (parts.now.categories + 1) n }
    requires still { IsStill xgrid.now flows.now parts.now.area.now parts.now.categories n }
    requires heat { length heat.old ≡ parts.now.categories * cells_of xgrid.now.ocean }
    requires can { (k : ℕ) → k < parts.now.categories → CanGainIce xgrid.now flows.now parts.now.categories heat.old n k }
    ensures heat { (k : ℕ) → k < parts.now.categories → at heat.new (n * parts.now.categories + k) ≡ at heat.old (n * parts.now.categories + k) +ℤ category_gain xgrid.now flows.now n k }
    ensures before { (m : ℕ) → m < n * parts.now.categories → at heat.new m ≡ at heat.old m }
    ensures ahead { (m : ℕ) → n * parts.now.categories + parts.now.categories ≤ m → at heat.new m ≡ at heat.old m }
    ensures value { result ≡ ice_of xgrid.now flows.now parts.now.categories n }
    ensures rain { IsSmall (2 ^ 23) result.rain }
    ensures taken { IsSmall (2 ^ 23) result.heat }
{
    let rows = xgrid.rows(Surface::Ocean).len();
    let IceParts {
        categories,
        area,
        used,
    } = *parts;
    let end = used[n] as usize;
    let mut ice = IceTaken { rain: 0, heat: 0 };
    for k in 0..end.saturating_sub(1) {
        if area[place_in(used.len(), n, k + 1)] != 0 {
            let place = n * categories + k;
            let sums = part_sums(refs, flows, rows, k + 1);
            heat[place] = gained(heat[place], sums.heat + sums.sun);
            ice.rain += sums.rain;
            ice.heat += sums.heat;
        }
    }
    ice
}

// A skin after the step, by the sums of the flows of its open water, where this rain fell on the categories of its cell.
fn skin_cell(sums: &Sums, rain: i128, heat: i64, water: i64) -> After
    requires sums { AreSmall (2 ^ 20) sums.now }
    requires rain { IsSmall (2 ^ 30) rain }
    requires heat { IsAmount (after heat water (with_rain (taken sums.now) rain) sums.now.sun).heat }
    requires water { IsAmount (after heat water (with_rain (taken sums.now) rain) sums.now.sun).water }
    ensures value { result ≡ after heat water (with_rain (taken sums.now) rain) sums.now.sun }
    ensures small { IsSmallTaken (2 ^ 44) result.taken }
{
    gain(heat, water, taken_by(sums).with_rain(rain), sums.sun)
}

// The categories and the skins of all cells take what flowed. The result is what they took from the air.
pub(crate) fn ocean_lists(
    xgrid: &XGrid,
    flows: &[Flow],
    parts: &IceParts,
    ice_heat: &mut [i64],
    heat: &mut [i64],
    water: &mut [i64],
) -> Taken
    requires { CanTakeIce xgrid.now flows.now parts.now.area.now parts.now.used.now parts.now.categories ice_heat.old heat.old water.old }
    ensures ice { HasTakenIce xgrid.now flows.now parts.now.categories ice_heat.old heat.old water.old ice_heat.new heat.new water.new }
    ensures taken { result ≡ taken_to (length heat.old) (λ n. ocean_at xgrid.now flows.now parts.now.categories n) }
{
    let area = parts.area;
    let mut all = Taken::none();
    for n in 0..heat.len() {
        let refs = xgrid.cells_of_ocean(n as u32);
        let ice = category_lists(xgrid, refs, flows, parts, n, ice_heat);
        let sums = open_sums(xgrid, refs, flows, area[n]);
        let skin = skin_cell(&sums, ice.rain, heat[n], water[n]);
        heat[n] = skin.heat;
        water[n] = skin.water;
        all.add(&skin.taken);
        all.add(&Taken {
            heat: ice.heat,
            water: 0,
        });
    }
    all
}
