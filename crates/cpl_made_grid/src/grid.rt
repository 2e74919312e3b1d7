// Made grids.
ghost use Rattle.std.specs.Prelude.{◌≡◌, None, IfOk, ◌+ℤ◌};
ghost use Rattle.cpl_fixed.specs.Totals.{total_of};
ghost use Rattle.cpl_xgrid.specs.Grids.{IsGrid};
ghost use Rattle.cpl_xgrid.specs.Lists.{IsMesh, AreRows, AreOutlets, lists_of};
ghost use Rattle.cpl_xgrid.specs.Rules.{xgrid_fault};
ghost use Rattle.cpl_made_grid.specs.declared.recipe.Recipe.{Recipe as RecipeValue};
ghost use Rattle.cpl_made_grid.specs.Shares.{IsSized};
ghost use Rattle.cpl_made_grid.specs.Overlaps.{land_rows, ocean_rows};
ghost use Rattle.cpl_made_grid.specs.Areas.{land_areas, ocean_areas};
ghost use Rattle.cpl_made_grid.specs.Outlets.{outlets};
ghost use Rattle.cpl_made_grid.specs.Grids.{made_grid, air_mesh, land_mesh, ocean_mesh};

use crate::areas::sums_of;
use crate::outlets::outlets_between;
use crate::overlaps::{Rows, make_rows};
use crate::recipe::Recipe;
use crate::shapes::{air_count, ocean_count, ocean_mosaic, sphere};
use cpl_fixed::List;
use cpl_mosaic::Mesh;
use cpl_xgrid::{Column, Grid, Outlet, XGrid, XGridError};
use std::alloc::{AllocError, Global};

// The mesh of the air.
fn air_mesh(alloc: Global, size: u32) -> Result<Mesh, AllocError>
    requires { IsSized size }
    ensures { IfOk result (λ mesh. mesh ≡ air_mesh size) }
{
    let area = vec![in alloc; i64::from(ocean_count(size)); air_count(size) as usize]?;
    Ok(Mesh {
        mosaic: sphere(alloc, size)?,
        area: List::from_vec(area),
    })
}

// The meshes of the land and of the ocean, with the exchange cells that they are made of.
#[derive(Drop)]
struct Surface {
    land: Mesh,
    ocean: Mesh,
    rows: Rows,
}

// The surface of a recipe.
fn make_surface(alloc: Global, recipe: Recipe) -> Result<Surface, AllocError>
    requires { IsSized recipe.size }
    ensures land { IfOk result (λ surface. surface.land ≡ land_mesh recipe) }
    ensures ocean { IfOk result (λ surface. surface.ocean ≡ ocean_mesh recipe) }
    ensures land_rows { IfOk result (λ surface. surface.rows.land.items ≡ land_rows recipe) }
    ensures ocean_rows { IfOk result (λ surface. surface.rows.ocean.items ≡ ocean_rows recipe) }
{
    let sphere = sphere(alloc, recipe.size)?;
    let ocean = ocean_mosaic(alloc, recipe.size)?;
    let rows = make_rows(alloc, recipe, &sphere, &ocean)?;
    let land_areas = sums_of(alloc, &sphere, &rows.land)?;
    let ocean_areas = sums_of(alloc, &ocean, &rows.ocean)?;
    Ok(Surface {
        land: Mesh {
            mosaic: sphere,
            area: List::from_vec(land_areas),
        },
        ocean: Mesh {
            mosaic: ocean,
            area: List::from_vec(ocean_areas),
        },
        rows,
    })
}

// Lists that keep the rules, as an exchange grid.
fn lawful_xgrid(
    alloc: Global,
    air: &Mesh,
    land: &Mesh,
    ocean: &Mesh,
    rows: Rows,
    outlets: Vec<Outlet>,
) -> Result<XGrid, AllocError>
    requires air { IsMesh air.now }
    requires land { IsMesh land.now }
    requires ocean { IsMesh ocean.now }
    requires rows { AreRows rows.land.items rows.ocean.items }
    requires outlets { AreOutlets outlets.items }
    requires rules { xgrid_fault air.now land.now ocean.now rows.land.items rows.ocean.items outlets.items ≡ None }
    ensures { IfOk result (λ xgrid. xgrid ≡ lists_of air.now land.now ocean.now rows.land.items rows.ocean.items outlets.items) }
{
    match XGrid::build(alloc, air, land, ocean, rows.land, rows.ocean, outlets) {
        Ok(xgrid) => Ok(xgrid),
        Err(XGridError::Memory) => Err(AllocError),
        Err(_) => unreachable!(),
    }
}

// The outlets of a recipe's land.
fn outlets(
    alloc: Global,
    recipe: Recipe,
    land: &Mesh,
    ocean: &Mesh,
) -> Result<Vec<Outlet>, AllocError>
    requires size { IsSized recipe.size }
    requires land { land.now ≡ land_mesh recipe }
    requires ocean { ocean.now ≡ ocean_mesh recipe }
    ensures { IfOk result (λ ways. ways.items ≡ outlets recipe) }
{
    outlets_between(
        alloc,
        recipe.size,
        &land.mosaic,
        &ocean.mosaic,
        land.area.as_slice(),
        ocean.area.as_slice(),
    )
}

/// The areas of the land and of the ocean sum to those of the air: nothing is left out or counted twice. No work is done.
pub fn areas_law()
    ensures { (recipe : RecipeValue) → IsSized recipe.size → total_of (land_areas recipe) +ℤ total_of (ocean_areas recipe) ≡ total_of (air_mesh recipe.size).area }
{}

/// The made grid of a recipe. It is lawful.
///
/// The air and the land have a cubed sphere of six tiles of `size` by `size` cells, the ocean a tile of `6 * size + 72` by
/// `4 * size + 8` cells that is cyclic and folded. Cells of the air and of the ocean divide a line into equal parts; each overlap of
/// two is an exchange cell, of land where the numbers say so. Each cell of the land with an area has an outlet to the next cell of the
/// ocean with one. Its time is linear in the cells, and for each outlet in the way to that cell. Defined by this project.
pub fn make_grid(alloc: Global, recipe: Recipe) -> Result<Grid, AllocError>
    requires { IsSized recipe.size }
    ensures grid { IfOk result (λ grid. grid ≡ made_grid recipe) }
    ensures lawful { IfOk result IsGrid }
{
    let air = air_mesh(alloc, recipe.size)?;
    let Surface { land, ocean, rows } = make_surface(alloc, recipe)?;
    let outlets = outlets(alloc, recipe, &land, &ocean)?;
    let xgrid = lawful_xgrid(alloc, &air, &land, &ocean, rows, outlets)?;
    let column = Column {
        layers: 2,
        categories: 3,
    };
    Ok(Grid {
        air,
        land,
        ocean,
        xgrid,
        column,
    })
}
