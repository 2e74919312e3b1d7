// The exchange cells of made grids, in one pass over both divisions of a line.
ghost use Rattle.std.specs.Prelude.{◌≡◌, ◌<◌, ◌≤◌, ◌++◌, OnOk, IfOk, pos};
ghost use Rattle.cpl_made_grid.specs.Shapes.{air_count, ocean_count, sphere_tiles, ocean_tiles};
ghost use Rattle.cpl_made_grid.specs.Overlaps.{in_common, is_land, land_rows_of, ocean_rows_of, land_rows, ocean_rows};
ghost use Rattle.cpl_made_grid.specs.Outlets.{first_under};
ghost use Rattle.cpl_made_grid.specs.Shares.{IsSized, end_under};

use crate::recipe::Recipe;
use crate::shapes::{air_count, ocean_count};
use crate::stream::{Purpose, drawn};
use cpl_mosaic::Mosaic;
use cpl_xgrid::XRow;
use std::alloc::{AllocError, Global};

// The exchange cells with the land, and those with the ocean.
#[derive(Drop)]
pub(crate) struct Rows {
    pub(crate) land: Vec<XRow>,
    pub(crate) ocean: Vec<XRow>,
}

// How much a cell of the air and one of the ocean have in common.
fn in_common(airs: u32, oceans: u32, a: u32, o: u32) -> i64
    ensures { result ≡ pos (in_common airs oceans a o) }
{
    let (airs, oceans) = (u64::from(airs), u64::from(oceans));
    let (a, o) = (u64::from(a), u64::from(o));
    let end = ((a + 1) * oceans).min((o + 1) * airs);
    let start = (a * oceans).max(o * airs);
    end.saturating_sub(start) as i64
}

// The first cell of the ocean that a cell of the air overlaps.
pub(crate) fn first_under(size: u32, a: u32) -> u32
    requires size { IsSized size }
    requires within { a < air_count size }
    ensures { result ≡ first_under size a }
{
    (u64::from(a) * u64::from(ocean_count(size)) / u64::from(air_count(size))) as u32
}

// The cell of the ocean behind the last one that a cell of the air overlaps.
fn end_under(size: u32, a: u32) -> u32
    requires size { IsSized size }
    requires within { a < air_count size }
    ensures { result ≡ end_under (air_count size) (ocean_count size) a }
{
    let end = (u64::from(a) + 1) * u64::from(ocean_count(size));
    ((end - 1) / u64::from(air_count(size)) + 1) as u32
}

// Whether an overlap is land.
fn is_land(recipe: Recipe, a: u32, o: u32) -> bool
    requires { 1 ≤ recipe.size }
    ensures { result ≡ is_land recipe a o }
{
    a >= recipe.size
        && drawn(recipe.number, Purpose::Block, a / recipe.size) % 3 == 0
        && drawn(recipe.number, Purpose::Coast, o) % 4 != 0
}

// Appends the exchange cells of a cell of the air.
fn push_rows(
    rows: &mut Rows,
    recipe: Recipe,
    sphere: &Mosaic,
    ocean: &Mosaic,
    a: u32,
) -> Result<(), AllocError>
    requires size { IsSized recipe.size }
    requires sphere { sphere.now.tiles ≡ sphere_tiles recipe.size }
    requires ocean { ocean.now.tiles ≡ ocean_tiles recipe.size }
    requires within { a < air_count recipe.size }
    ensures land { OnOk result (rows.new.land.items ≡ rows.old.land.items ++ land_rows_of recipe a) }
    ensures ocean { OnOk result (rows.new.ocean.items ≡ rows.old.ocean.items ++ ocean_rows_of recipe a) }
{
    let airs = air_count(recipe.size);
    let oceans = ocean_count(recipe.size);
    let air = sphere.cell(a);
    for o in first_under(recipe.size, a)..end_under(recipe.size, a) {
        let area = in_common(airs, oceans, a, o);
        if is_land(recipe, a, o) {
            rows.land.push(XRow {
                air,
                other: air,
                area,
            })?;
        } else {
            let other = ocean.cell(o);
            rows.ocean.push(XRow { air, other, area })?;
        }
    }
    Ok(())
}

// The exchange cells of all cells of the air.
pub(crate) fn make_rows(
    alloc: Global,
    recipe: Recipe,
    sphere: &Mosaic,
    ocean: &Mosaic,
) -> Result<Rows, AllocError>
    requires size { IsSized recipe.size }
    requires sphere { sphere.now.tiles ≡ sphere_tiles recipe.size }
    requires ocean { ocean.now.tiles ≡ ocean_tiles recipe.size }
    ensures land { IfOk result (λ rows. rows.land.items ≡ land_rows recipe) }
    ensures ocean { IfOk result (λ rows. rows.ocean.items ≡ ocean_rows recipe) }
{
    let mut rows = Rows {
        land: Vec::new(alloc),
        ocean: Vec::with_capacity(alloc, ocean_count(recipe.size) as usize)?,
    };
    for a in 0..air_count(recipe.size) {
        push_rows(&mut rows, recipe, sphere, ocean, a)?;
    }
    Ok(rows)
}
