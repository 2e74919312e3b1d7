// The exchange cells of each cell of a parent, and the outlets of each cell of the land.
ghost use Rattle.std.specs.Prelude.{◌≡◌, ◌+◌, ◌≤◌, ◌++◌, length, map, None, IfOk, OnOk, IfErr};
ghost use Rattle.cpl_fixed.specs.declared.limits.TheConstants.{MOST_EXCHANGE_CELLS, MOST_OUTLETS};
ghost use Rattle.cpl_xgrid.specs.Lists.{IsMesh, AreRows};
ghost use Rattle.cpl_xgrid.specs.Rules.{tiles_of, first_fault, no_outlet_fault, IsFirstFault};
ghost use Rattle.cpl_xgrid.specs.Rows.{air_cell, other_cell, land_cell, outlets_of};
ghost use Rattle.cpl_xgrid.specs.Indexes.{AreCells, for_cells};
ghost use Rattle.cpl_xgrid.specs.Parents.{parent_cells, lands_of, parent_refs, parent_fault};

use crate::cells::by_cell;
use crate::rules::{Parent, check_dry, check_sums};
use crate::{Groups, Outlet, XGridError, XRef, XRow};
use cpl_mosaic::{CellId, Mesh};
use std::alloc::{AllocError, Global};

/// The cells of the land or the ocean that exchange cells are of.
pub fn other_cells(alloc: Global, rows: &[XRow]) -> Result<Vec<CellId>, AllocError>
    ensures { IfOk result (λ cells. cells.items ≡ map other_cell rows.now) }
{
    rows.iter().map(|row| row.other).collect(alloc)
}

// Adds the cells of the air that exchange cells are of.
fn push_cells(cells: &mut Vec<CellId>, rows: &[XRow]) -> Result<(), AllocError>
    ensures { OnOk result (cells.new.items ≡ cells.old.items ++ map air_cell rows.now) }
{
    for row in rows {
        cells.push(row.air)?;
    }
    Ok(())
}

/// The cells of the air that exchange cells of both lists are of, the land list first.
pub fn air_cells(
    alloc: Global,
    land_rows: &[XRow],
    ocean_rows: &[XRow],
) -> Result<Vec<CellId>, AllocError>
    requires { length land_rows.now + length ocean_rows.now ≤ MOST_EXCHANGE_CELLS }
    ensures { IfOk result (λ cells. cells.items ≡ map air_cell land_rows.now ++ map air_cell ocean_rows.now) }
{
    let mut cells = Vec::with_capacity(alloc, land_rows.len() + ocean_rows.len())?;
    push_cells(&mut cells, land_rows)?;
    push_cells(&mut cells, ocean_rows)?;
    Ok(cells)
}

/// The cells of the land that outlets are of.
pub fn land_cells(alloc: Global, outlets: &[Outlet]) -> Result<Vec<CellId>, AllocError>
    ensures { IfOk result (λ cells. cells.items ≡ map land_cell outlets.now) }
{
    outlets.iter().map(|outlet| outlet.land).collect(alloc)
}

// The cells of a parent that its exchange cells are of.
fn parent_cells(
    alloc: Global,
    of: Parent,
    land_rows: &[XRow],
    ocean_rows: &[XRow],
) -> Result<Vec<CellId>, AllocError>
    requires { length land_rows.now + length ocean_rows.now ≤ MOST_EXCHANGE_CELLS }
    ensures { IfOk result (λ cells. cells.items ≡ parent_cells of land_rows.now ocean_rows.now) }
{
    match of {
        Parent::Air => air_cells(alloc, land_rows, ocean_rows),
        Parent::Land => other_cells(alloc, land_rows),
        Parent::Ocean => other_cells(alloc, ocean_rows),
    }
}

// How many of them are of the land list.
fn lands_of(of: Parent, land_rows: &[XRow]) -> u32
    requires { length land_rows.now ≤ MOST_EXCHANGE_CELLS }
    ensures { result ≡ lands_of of land_rows.now }
{
    match of {
        Parent::Air | Parent::Land => land_rows.len() as u32,
        Parent::Ocean => 0,
    }
}

// The exchange cells of each cell of a parent, in element order.
fn parent_refs(
    alloc: Global,
    of: Parent,
    mesh: &Mesh,
    land_rows: &[XRow],
    ocean_rows: &[XRow],
) -> Result<Groups<XRef>, AllocError>
    requires few { length land_rows.now + length ocean_rows.now ≤ MOST_EXCHANGE_CELLS }
    requires cells { AreCells (tiles_of mesh.now) (parent_cells of land_rows.now ocean_rows.now) }
    ensures { IfOk result (λ refs. refs ≡ for_cells (tiles_of mesh.now) (parent_refs of land_rows.now ocean_rows.now)) }
{
    let cells = parent_cells(alloc, of, land_rows, ocean_rows)?;
    let groups = by_cell(alloc, &mesh.mosaic, &cells)?;
    drop(cells);
    groups.refs(alloc, lands_of(of, land_rows))
}

// The same, where they sum to the areas of the cells. Else the least cell that they don't sum to is refused.
pub(crate) fn sum_parent(
    alloc: Global,
    of: Parent,
    mesh: &Mesh,
    land_rows: &[XRow],
    ocean_rows: &[XRow],
) -> Result<Groups<XRef>, XGridError>
    requires mesh { IsMesh mesh.now }
    requires rows { AreRows land_rows.now ocean_rows.now }
    requires cells { AreCells (tiles_of mesh.now) (parent_cells of land_rows.now ocean_rows.now) }
    ensures refs { IfOk result (λ refs. refs ≡ for_cells (tiles_of mesh.now) (parent_refs of land_rows.now ocean_rows.now)) }
    ensures rules { OnOk result (parent_fault of mesh.now land_rows.now ocean_rows.now ≡ None) }
    ensures fault { IfErr result (IsFirstFault (parent_fault of mesh.now land_rows.now ocean_rows.now)) }
{
    let _count = mesh.mosaic.cells();
    let refs = parent_refs(alloc, of, mesh, land_rows, ocean_rows)?;
    check_sums(of, mesh.area.as_slice(), &refs, land_rows, ocean_rows)?;
    Ok(refs)
}

// The numbers of the outlets of each cell of the land. The least cell with an area and no outlet is refused.
pub(crate) fn outlets_of(
    alloc: Global,
    land: &Mesh,
    outlets: &[Outlet],
) -> Result<Groups<u32>, XGridError>
    requires mesh { IsMesh land.now }
    requires few { length outlets.now ≤ MOST_OUTLETS }
    requires cells { AreCells (tiles_of land.now) (map land_cell outlets.now) }
    ensures outlets { IfOk result (λ groups. groups ≡ for_cells (tiles_of land.now) (outlets_of outlets.now)) }
    ensures rules { OnOk result (first_fault (no_outlet_fault land.now outlets.now) 0 land.now.area ≡ None) }
    ensures fault { IfErr result (IsFirstFault (first_fault (no_outlet_fault land.now outlets.now) 0 land.now.area)) }
{
    let _count = land.mosaic.cells();
    let cells = land_cells(alloc, outlets)?;
    let groups = by_cell(alloc, &land.mosaic, &cells)?;
    check_dry(land.area.as_slice(), &groups)?;
    Ok(groups)
}
