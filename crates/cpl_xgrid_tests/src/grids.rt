// Exchange grids of rows of cells, which look before they ask.
ghost use Rattle.std.specs.Prelude.{All, IfOk};
ghost use Rattle.std.specs.Bool.{OnTrue};
ghost use Rattle.cpl_fixed.specs.Ranges.{IsFromℤ};
ghost use Rattle.cpl_fixed.specs.declared.limits.TheConstants.{MOST_AREA as GREATEST_AREA, MOST_WEIGHT as GREATEST_WEIGHT};
ghost use Rattle.cpl_xgrid.specs.Grids.{IsGrid};
ghost use Rattle.cpl_xgrid.specs.Lists.{IsArea, IsMesh};

use cpl_fixed::List;
use cpl_mosaic::{CellId, Mesh, Mosaic, Tile};
use cpl_xgrid::{Column, Grid, Outlet, XGrid, XGridError, XRow};
use cpl_xput::XPut;
use std::alloc::{AllocError, Global};

const MOST_AREA: i64 = 1 << 40;

const MOST_WEIGHT: i64 = 1 << 20;

/// The lists of an exchange grid: the areas of the cells of the air, the land and the ocean, exchange cells and outlets, each by
/// its two cells and its area or weight.
#[derive(Clone, Copy)]
pub(crate) struct Lists<'a> {
    pub(crate) air: &'a [i64],
    pub(crate) land: &'a [i64],
    pub(crate) ocean: &'a [i64],
    pub(crate) land_rows: &'a [(u32, u32, i64)],
    pub(crate) ocean_rows: &'a [(u32, u32, i64)],
    pub(crate) outlets: &'a [(u32, u32, i64)],
}

fn are_areas(area: &[i64]) -> bool
    ensures { OnTrue result (All IsArea area.now) }
{
    for a in area {
        if *a < 0 || *a > MOST_AREA {
            return false;
        }
    }
    true
}

fn have_areas(rows: &[XRow]) -> bool
    ensures { OnTrue result (All (λ row. IsArea row.area) rows.now) }
{
    for row in rows {
        if row.area < 0 || row.area > MOST_AREA {
            return false;
        }
    }
    true
}

fn have_weights(outlets: &[Outlet]) -> bool
    ensures { OnTrue result (All (λ outlet. IsFromℤ 0 GREATEST_WEIGHT outlet.weight) outlets.now) }
{
    for outlet in outlets {
        if outlet.weight < 0 || outlet.weight > MOST_WEIGHT {
            return false;
        }
    }
    true
}

fn cell(i: u32) -> CellId {
    CellId { tile: 0, i, j: 0 }
}

/// A mesh of one row of cells.
fn mesh(alloc: Global, area: &[i64]) -> Result<Mesh, XGridError>
    ensures { IfOk result IsMesh }
{
    if area.is_empty() || area.len() > 512 || !are_areas(area) {
        return Err(XGridError::Memory);
    }
    let tile = Tile {
        nx: area.len() as u32,
        ny: 1,
    };
    let Ok(mosaic) = Mosaic::new(alloc, &[tile], &[]) else {
        return Err(XGridError::Memory);
    };
    let area = List::from_vec(Vec::from_slice(alloc, area)?);
    if area.len() != mosaic.cells() as usize || !are_areas(area.as_slice()) {
        return Err(XGridError::Memory);
    }
    Ok(Mesh { mosaic, area })
}

fn rows(alloc: Global, list: &[(u32, u32, i64)]) -> Result<Vec<XRow>, AllocError> {
    list.iter()
        .map(|(air, other, area)| XRow {
            air: cell(*air),
            other: cell(*other),
            area: *area,
        })
        .collect(alloc)
}

fn ways(alloc: Global, list: &[(u32, u32, i64)]) -> Result<Vec<Outlet>, AllocError> {
    list.iter()
        .map(|(land, ocean, weight)| Outlet {
            land: cell(*land),
            ocean: cell(*ocean),
            weight: *weight,
        })
        .collect(alloc)
}

/// The coupled grid of these lists, with two categories of ice. Lists past the limits count as no memory here.
pub(crate) fn grid(alloc: Global, lists: Lists<'_>) -> Result<Grid, XGridError>
    ensures { IfOk result IsGrid }
{
    let air = mesh(alloc, lists.air)?;
    let land = mesh(alloc, lists.land)?;
    let ocean = mesh(alloc, lists.ocean)?;
    let land_rows = rows(alloc, lists.land_rows)?;
    let ocean_rows = rows(alloc, lists.ocean_rows)?;
    let outlets = ways(alloc, lists.outlets)?;
    if land_rows.len() > 64 || ocean_rows.len() > 64 || outlets.len() > 64 {
        return Err(XGridError::Memory);
    }
    if !have_areas(&land_rows) || !have_areas(&ocean_rows) || !have_weights(&outlets) {
        return Err(XGridError::Memory);
    }
    let xgrid = XGrid::build(alloc, &air, &land, &ocean, land_rows, ocean_rows, outlets)?;
    Ok(Grid {
        air,
        land,
        ocean,
        xgrid,
        column: Column {
            layers: 1,
            categories: 2,
        },
    })
}

/// The area of an exchange cell over three parts, where they are parts of a cell.
pub(crate) fn divided(area: i64, [water, thin, thick]: [i64; 3]) -> Option<[i64; 3]> {
    if area < 0 || water < 0 || thin < 0 || thick < 0 {
        return None;
    }
    if water > 65536 || thin > 65536 || thick > 65536 || water + thin + thick != 65536 {
        return None;
    }
    let mut b = [0; 3];
    XPut::parts(area, &[water, thin, thick], &mut b);
    Some(b)
}
