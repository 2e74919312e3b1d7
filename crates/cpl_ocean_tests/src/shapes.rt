// Oceans of few cells that the tests share, made by functions that look before they ask.
ghost use Rattle.std.specs.Prelude.{All, length, IfOk, ◌≤◌};
ghost use Rattle.std.specs.Bool.{OnTrue};
ghost use Rattle.cpl_xgrid.specs.Lists.{IsArea, IsColumn, IsMesh};

use cpl_fixed::{List, MOST_AREA};
use cpl_mosaic::{Contact, Mesh, Mosaic, Tile};
use cpl_samples::are_small_tiles;
use cpl_xgrid::{Column, Grid, XGrid};
use std::alloc::{AllocError, Global};

/// An ocean: its tiles and their contacts, the areas of its cells in whole order, and how many layers it has.
#[derive(Clone, Copy)]
pub(crate) struct Shape {
    pub(crate) tiles: &'static [Tile],
    pub(crate) contacts: &'static [Contact],
    pub(crate) area: &'static [i64],
    pub(crate) layers: u32,
}

fn are_areas(area: &[i64]) -> bool
    ensures { OnTrue result (All IsArea area.now) }
{
    area.iter().all(|a| *a >= 0 && *a as u64 <= MOST_AREA)
}

// A mesh of small tiles. Others count as no memory here.
fn mesh(
    alloc: Global,
    tiles: &[Tile],
    contacts: &[Contact],
    area: &[i64],
) -> Result<Mesh, AllocError>
    ensures { IfOk result IsMesh }
{
    if !are_small_tiles(tiles) || contacts.len() > 256 {
        return Err(AllocError);
    }
    let Ok(mosaic) = Mosaic::new(alloc, tiles, contacts) else {
        return Err(AllocError);
    };
    let area = List::from_vec(Vec::from_slice(alloc, area)?);
    if area.len() != mosaic.cells() as usize || !are_areas(area.as_slice()) {
        return Err(AllocError);
    }
    Ok(Mesh { mosaic, area })
}

// One cell without area.
fn dry(alloc: Global) -> Result<Mesh, AllocError>
    ensures { IfOk result IsMesh }
{
    mesh(alloc, &[Tile { nx: 1, ny: 1 }], &[], &[0])
}

// The exchange grid of three meshes without area.
fn no_exchange(alloc: Global, mesh: &Mesh) -> Result<XGrid, AllocError>
    requires { IsMesh mesh.now }
{
    let rows = Vec::new(alloc);
    let others = Vec::new(alloc);
    match XGrid::build(alloc, mesh, mesh, mesh, rows, others, Vec::new(alloc)) {
        Ok(xgrid) => Ok(xgrid),
        Err(_) => Err(AllocError),
    }
}

// Two meshes without area, for the air and the land, and the exchange grid of such.
fn surroundings(alloc: Global) -> Result<(Mesh, Mesh, XGrid), AllocError> {
    let air = dry(alloc)?;
    let land = dry(alloc)?;
    let xgrid = no_exchange(alloc, &air)?;
    Ok((air, land, xgrid))
}

// A grid with an ocean of this mesh and of so many layers.
fn with_ocean(alloc: Global, ocean: Mesh, layers: u32) -> Result<Grid, AllocError>
    requires ocean { IsMesh ocean }
    requires layers { (1 ≤ layers) × (layers ≤ 8) }
    ensures ocean { IfOk result (λ grid. IsMesh grid.ocean) }
    ensures column { IfOk result (λ grid. IsColumn grid.column) }
{
    let (air, land, xgrid) = surroundings(alloc)?;
    Ok(Grid {
        air,
        land,
        ocean,
        xgrid,
        column: Column {
            layers,
            categories: 1,
        },
    })
}

/// A grid with this ocean. Air, land and exchange grid are of dry cells: the ocean's steps don't look at them.
pub(crate) fn grid(alloc: Global, shape: &Shape) -> Result<Grid, AllocError>
    ensures ocean { IfOk result (λ grid. IsMesh grid.ocean) }
    ensures column { IfOk result (λ grid. IsColumn grid.column) }
{
    let layers = shape.layers;
    if layers == 0 || layers > 8 {
        return Err(AllocError);
    }
    let ocean = mesh(alloc, shape.tiles, shape.contacts, shape.area)?;
    with_ocean(alloc, ocean, layers)
}
