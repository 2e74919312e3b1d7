// The tables that flows are looked up in.
ghost use Rattle.std.specs.Prelude.{◌≡◌, ◌≢◌, ℕ, ◌+◌, ◌*◌, ◌<◌, ◌≤◌, length, pos, ◌≤ℤ◌, IfOk, All, take};
ghost use Rattle.cpl_fixed.specs.Amounts.{at};
ghost use Rattle.cpl_fixed.specs.Ranges.{AreRates};
ghost use Rattle.cpl_fixed.specs.Shares.{share};
ghost use Rattle.cpl_fixed.specs.Totals.{total_of};
ghost use Rattle.cpl_fixed.specs.declared.limits.TheConstants.{MOST_CELLS};
ghost use Rattle.cpl_mosaic.specs.Contacts.{cells_of};
ghost use Rattle.cpl_xgrid.specs.Lists.{IsArea};
ghost use Rattle.cpl_xgrid.specs.declared.parts.XRow.{XRow};
ghost use Rattle.cpl_flux.specs.Elements.{IsAirSide};
ghost use Rattle.cpl_xgrid.specs.Grids.{IsGrid};
ghost use Rattle.cpl_xgrid.specs.declared.parts.Surface.TheVariants.{Land, Ocean};
ghost use Rattle.cpl_fast.specs.Flows.{link_at, sky_at};
ghost use Rattle.cpl_fast.specs.Places.{AreEnds, IsEnd, place_in};
ghost use Rattle.cpl_fast.specs.Sums.{reaches};
ghost use Rattle.cpl_fast.specs.Tables.{AreLinked, AreLinks, CanLink, CanSumAreas, area_over, cells_on, parts_of, row_in, side_of, sky_by, sky_under};

use crate::flows::{Link, Sky};
use crate::layout::place_in;
use crate::portions::Portions;
use cpl_fixed::{MOST_TOTAL, PARTS, Rates};
use cpl_flux::{AirSide, weather};
use cpl_mosaic::Mosaic;
use cpl_xgrid::{Grid, Surface, XGrid, XRef, XRow};
use std::alloc::{AllocError, Global};

// The links of the rows of a list. `areas` has for each cell of the air the area of its exchange cells so far.
pub(crate) fn list_links(
    alloc: Global,
    air: &Mosaic,
    surface: &Mosaic,
    rows: &[XRow],
    areas: &mut [i64],
) -> Result<Vec<Link>, AllocError>
    requires { CanLink air.now.tiles surface.now.tiles rows.now areas.old }
    ensures { IfOk result (λ links. AreLinked air.now.tiles surface.now.tiles rows.now (length rows.now) areas.old links.items areas.new) }
{
    // The contract of `cells` has the laws of numbers.
    let _cells = air.cells();
    let mut links = Vec::with_capacity(alloc, rows.len())?;
    for row in rows {
        let cell = air.number(row.air);
        let before = areas[cell as usize];
        areas[cell as usize] = before + row.area;
        links.push(Link {
            air: cell,
            surface: surface.number(row.other),
            before,
        })?;
    }
    Ok(links)
}

// The skies of all cells of the air.
pub(crate) fn fill_skies(
    rates: &Rates,
    heat: &[i64],
    vapour: &[i64],
    area: &[i64],
    skies: &mut [Sky],
)
    requires rates { AreRates rates.now }
    requires heat { length heat.now ≡ length skies.old }
    requires vapour { length vapour.now ≡ length skies.old }
    requires area { length area.now ≡ length skies.old }
    requires cells { (n : ℕ) → n < length skies.old → IsAirSide (side_of heat.now vapour.now area.now n) }
    ensures count { length skies.new ≡ length skies.old }
    ensures value { (n : ℕ) → n < length skies.old → sky_at skies.new n ≡ sky_by rates.now heat.now vapour.now area.now n }
{
    for n in 0..skies.len() {
        let air = AirSide {
            heat: heat[n],
            vapour: vapour[n],
            area: area[n],
        };
        skies[n] = sky(rates, &air);
    }
}

// The sky of a cell of the air.
#[inline]
fn sky(rates: &Rates, air: &AirSide) -> Sky
    requires rates { AreRates rates.now }
    requires air { IsAirSide air.now }
    ensures { result ≡ sky_under rates.now air.now }
{
    Sky {
        air: *air,
        weather: weather(rates, air),
    }
}

/// The links of both lists of a grid.
#[derive(Drop)]
pub(crate) struct GridLinks {
    pub(crate) land: Vec<Link>,
    pub(crate) ocean: Vec<Link>,
}

// The links of a grid.
pub(crate) fn links_of(alloc: Global, grid: &Grid) -> Result<GridLinks, AllocError>
    requires { IsGrid grid.now }
    ensures land { IfOk result (λ links. AreLinks grid.now Land links.land.items) }
    ensures ocean { IfOk result (λ links. AreLinks grid.now Ocean links.ocean.items) }
{
    // The contracts of `cells` have the laws of numbers.
    let _land_cells = grid.land.mosaic.cells();
    let _ocean_cells = grid.ocean.mosaic.cells();
    let cells = grid.air.mosaic.cells();
    let mut areas = vec![in alloc; 0; cells as usize]?;
    let rows = grid.xgrid.rows(Surface::Land);
    let land = list_links(alloc, &grid.air.mosaic, &grid.land.mosaic, rows, &mut areas)?;
    let rows = grid.xgrid.rows(Surface::Ocean);
    let ocean = list_links(
        alloc,
        &grid.air.mosaic,
        &grid.ocean.mosaic,
        rows,
        &mut areas,
    )?;
    Ok(GridLinks { land, ocean })
}

// The areas of the elements of the rows of the land list, one for each. All of them are looked at.
pub(crate) fn fill_land_areas(rows: &[XRow], areas: &mut [i64], used: &mut [u8])
    requires areas { length areas.old ≡ length rows.now }
    requires used { length used.old ≡ length rows.now }
    requires ranges { All (λ (row : XRow). IsArea row.area) rows.now }
    ensures count { length areas.new ≡ length areas.old }
    ensures value { (m : ℕ) → m < length rows.now → at areas.new m ≡ (row_in rows.now m).area }
    ensures used { AreEnds areas.new used.new (length rows.now) 1 }
{
    for m in 0..rows.len() {
        areas[m] = rows[m].area;
        used[m] = 1;
    }
}

// The areas of the elements of a row of the ocean list, one of so many rows: its shares over the parts of its cell. The result is how
// many of the first ones are to be looked at.
fn fill_row_areas(row_area: i64, parts: &[i64], rows: usize, row: usize, areas: &mut [i64]) -> u8
    requires area { IsArea row_area }
    requires row { row < rows }
    requires areas { length areas.old ≡ rows * length parts.now }
    requires few { length parts.now ≤ 6 }
    requires natural { All (λ x. pos 0 ≤ℤ x) parts.now }
    requires whole { total_of parts.now ≡ PARTS }
    ensures count { length areas.new ≡ length areas.old }
    ensures value { (k : ℕ) → k < length parts.now → at areas.new (place_in rows row k) ≡ share row_area (total_of (take k parts.now)) (total_of (take (k + 1) parts.now)) PARTS }
    ensures others { (r k : ℕ) → r < rows → r ≢ row → at areas.new (place_in rows r k) ≡ at areas.old (place_in rows r k) }
    ensures used { IsEnd areas.new rows (length parts.now) row result }
{
    let mut used = 0;
    let mut portions = Portions::new(row_area, 0, PARTS);
    for k in 0..parts.len() {
        let area = portions.next(parts[k]);
        areas[place_in(rows, row, k)] = area;
        if area != 0 {
            used = k + 1;
        }
    }
    used as u8
}

// The areas of the elements of the rows of the ocean list, part by part.
pub(crate) fn fill_ocean_areas(
    rows: &[XRow],
    links: &[Link],
    parts: &[i64],
    width: usize,
    areas: &mut [i64],
    used: &mut [u8],
)
    requires areas { length areas.old ≡ length rows.now * width }
    requires used { length used.old ≡ length rows.now }
    requires few { width ≤ 6 }
    requires links { length links.now ≡ length rows.now }
    requires ranges { All (λ (row : XRow). IsArea row.area) rows.now }
    requires places { (m : ℕ) → m < length rows.now → (link_at links.now m).surface * width + width ≤ length parts.now }
    requires natural { All (λ x. pos 0 ≤ℤ x) parts.now }
    requires whole { (m : ℕ) → m < length rows.now → total_of (parts_of links.now parts.now width m) ≡ PARTS }
    ensures count { length areas.new ≡ length areas.old }
    ensures value { (m k : ℕ) → m < length rows.now → k < width
        → at areas.new (place_in (length rows.now) m k) ≡ share (row_in rows.now m).area (total_of (take k (parts_of links.now parts.now width m))) (total_of (take (k + 1) (parts_of links.now parts.now width m))) PARTS }
    ensures used { AreEnds areas.new used.new (length rows.now) width }
{
    for m in 0..rows.len() {
        let first = links[m].surface as usize * width;
        let own = &parts[first..first + width];
        used[m] = fill_row_areas(rows[m].area, own, rows.len(), m, areas);
    }
}

// The area of a part of the surface: the sum over its elements, where the list has so many rows.
fn part_area(refs: &[XRef], areas: &[i64], rows: usize, k: usize) -> i64
    requires reach { All (reaches rows) refs.now }
    requires part { k * rows + rows ≤ length areas.now }
    requires least { All (λ x. pos 0 ≤ℤ x) areas.now }
    requires most { area_over refs.now areas.now rows k ≤ℤ pos MOST_TOTAL }
    ensures { result ≡ area_over refs.now areas.now rows k }
{
    let mut sum = 0;
    for xref in refs {
        sum += areas[place_in(rows, xref.row as usize, k)];
    }
    sum
}

// The areas of all cells of the land.
pub(crate) fn sum_land_areas(xgrid: &XGrid, areas: &[i64], sums: &mut [i64])
    requires sums { length sums.old ≡ cells_of xgrid.now.land }
    requires few { length sums.old ≤ MOST_CELLS }
    requires least { All (λ x. pos 0 ≤ℤ x) areas.now }
    requires can { (n : ℕ) → n < cells_of xgrid.now.land → CanSumAreas (cells_on xgrid.now Land n) areas.now (length xgrid.now.land_rows) 1 }
    ensures count { length sums.new ≡ length sums.old }
    ensures value { (n : ℕ) → n < cells_of xgrid.now.land → at sums.new n ≡ area_over (cells_on xgrid.now Land n) areas.now (length xgrid.now.land_rows) 0 }
{
    let rows = xgrid.rows(Surface::Land).len();
    for n in 0..sums.len() {
        sums[n] = part_area(xgrid.cells_of_land(n as u32), areas, rows, 0);
    }
}

// The areas of the parts of a cell of the ocean's mosaic, one of so many cells. The result is how many of the first ones are to be
// looked at.
fn fill_cell_areas(
    refs: &[XRef],
    areas: &[i64],
    rows: usize,
    width: usize,
    cells: usize,
    n: usize,
    sums: &mut [i64],
) -> u8
    requires can { CanSumAreas refs.now areas.now rows width }
    requires least { All (λ x. pos 0 ≤ℤ x) areas.now }
    requires few { width ≤ 6 }
    requires cell { n < cells }
    requires sums { length sums.old ≡ cells * width }
    ensures count { length sums.new ≡ length sums.old }
    ensures value { (k : ℕ) → k < width → at sums.new (place_in cells n k) ≡ area_over refs.now areas.now rows k }
    ensures others { (m k : ℕ) → m < cells → m ≢ n → at sums.new (place_in cells m k) ≡ at sums.old (place_in cells m k) }
    ensures used { IsEnd sums.new cells width n result }
{
    let mut used = 0;
    for k in 0..width {
        let area = part_area(refs, areas, rows, k);
        sums[place_in(cells, n, k)] = area;
        if area != 0 {
            used = k + 1;
        }
    }
    used as u8
}

// The areas of the parts of all cells of the ocean's mosaic, part by part, and how many of each cell are to be looked at.
pub(crate) fn sum_ocean_areas(
    xgrid: &XGrid,
    cells: u32,
    areas: &[i64],
    width: usize,
    sums: &mut [i64],
    used: &mut [u8],
)
    requires cells { cells ≡ cells_of xgrid.now.ocean }
    requires few { width ≤ 6 }
    requires sums { length sums.old ≡ cells * width }
    requires used { length used.old ≡ cells }
    requires least { All (λ x. pos 0 ≤ℤ x) areas.now }
    requires can { (n : ℕ) → n < cells_of xgrid.now.ocean → CanSumAreas (cells_on xgrid.now Ocean n) areas.now (length xgrid.now.ocean_rows) width }
    ensures count { length sums.new ≡ length sums.old }
    ensures value { (n k : ℕ) → n < cells_of xgrid.now.ocean → k < width → at sums.new (place_in cells n k) ≡ area_over (cells_on xgrid.now Ocean n) areas.now (length xgrid.now.ocean_rows) k }
    ensures used { AreEnds sums.new used.new cells width }
{
    let rows = xgrid.rows(Surface::Ocean).len();
    for n in 0..cells {
        let refs = xgrid.cells_of_ocean(n);
        let place = n as usize;
        used[place] = fill_cell_areas(refs, areas, rows, width, cells as usize, place, sums);
    }
}
