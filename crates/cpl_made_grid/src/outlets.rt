// The outlets of made grids.
ghost use Rattle.std.specs.Prelude.{◌≡◌, ◌≤◌, ◌<◌, IfSome, IfOk, length};
ghost use Rattle.cpl_fixed.specs.declared.limits.TheConstants.{MOST_CELLS};
ghost use Rattle.cpl_made_grid.specs.Shapes.{air_count, ocean_count, sphere_tiles, ocean_tiles};
ghost use Rattle.cpl_made_grid.specs.Shares.{IsSized};
ghost use Rattle.cpl_made_grid.specs.Outlets.{wet_from, wet_near, outlets_between};

use crate::overlaps::first_under;
use cpl_mosaic::Mosaic;
use cpl_xgrid::Outlet;
use std::alloc::{AllocError, Global};

// The least cell with an area, from this one on.
#[tactic(auto, unfolding(crate::specs::Outlets::wet_from))]
fn wet_from(areas: &[i64], start: u32) -> Option<u32>
    requires { length areas.now ≤ MOST_CELLS }
    ensures value { result ≡ wet_from areas.now start }
    ensures within { IfSome result (λ n. n < length areas.now) }
{
    for n in start..areas.len() as u32 {
        if areas[n as usize] != 0 {
            return Some(n);
        }
    }
    None
}

// The same, or where there is none the least cell with an area.
fn wet_near(areas: &[i64], start: u32) -> u32
    requires few { length areas.now ≤ MOST_CELLS }
    requires some { 0 < length areas.now }
    ensures value { result ≡ wet_near areas.now start }
    ensures within { result < length areas.now }
{
    match wet_from(areas, start) {
        Some(n) => n,
        None => wet_from(areas, 0).unwrap_or(0),
    }
}

// An outlet for each cell of the land with an area.
pub(crate) fn outlets_between(
    alloc: Global,
    size: u32,
    sphere: &Mosaic,
    ocean: &Mosaic,
    land_areas: &[i64],
    ocean_areas: &[i64],
) -> Result<Vec<Outlet>, AllocError>
    requires size { IsSized size }
    requires sphere { sphere.now.tiles ≡ sphere_tiles size }
    requires ocean { ocean.now.tiles ≡ ocean_tiles size }
    requires lands { length land_areas.now ≡ air_count size }
    requires oceans { length ocean_areas.now ≡ ocean_count size }
    ensures { IfOk result (λ outlets. outlets.items ≡ outlets_between size land_areas.now ocean_areas.now) }
{
    let mut outlets = Vec::new(alloc);
    for (a, area) in land_areas.iter().enumerate() {
        if *area != 0 {
            let cell = a as u32;
            let near = wet_near(ocean_areas, first_under(size, cell));
            outlets.push(Outlet {
                land: sphere.cell(cell),
                ocean: ocean.cell(near),
                weight: 1,
            })?;
        }
    }
    Ok(outlets)
}
