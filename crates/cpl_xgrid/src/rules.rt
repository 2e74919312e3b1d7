// The rules of an exchange grid, each judged in order of rows or cells.
ghost use Rattle.std.specs.Prelude.{◌≡◌, ◌<◌, ◌≤◌, ℕ, [], length, map, All, Some, None, OnOk, IfErr, pos, not, slice_index_or};
ghost use Rattle.std.specs.Ordering.{int_eq};
ghost use Rattle.cpl_fixed.specs.declared.limits.TheConstants.{MOST_EXCHANGE_CELLS, MOST_CELLS, MOST_OUTLETS};
ghost use Rattle.cpl_mosaic.specs.Sides.{IsCellOf};
ghost use Rattle.cpl_xgrid.specs.Lists.{IsMesh, AreRows};
ghost use Rattle.cpl_xgrid.specs.Rules.{first_fault, row_fault, outlet_fault, area_at, tiles_of};
ghost use Rattle.cpl_xgrid.specs.Indexes.{AreRefs, refs_area, ref_area, sum_fault, group_fault, dry_fault, list_of};

use crate::cells::is_cell;
use crate::{Groups, Outlet, Surface, XGridError, XRef, XRow};
use cpl_mosaic::Mesh;

// A mosaic that exchange cells have a parent in.
#[derive(Clone, Copy)]
pub(crate) enum Parent {
    Air,
    Land,
    Ocean,
}

// What is wrong with an exchange cell: a cell outside its mosaic, or else no area.
fn row_fault(list: Surface, air: &Mesh, other: &Mesh, n: u32, row: XRow) -> Option<XGridError>
    ensures { result ≡ row_fault list (tiles_of air.now) (tiles_of other.now) n row }
{
    if !(is_cell(air.mosaic.tiles(), row.air) && is_cell(other.mosaic.tiles(), row.other)) {
        Some(XGridError::BadIndex(list, n))
    } else if row.area == 0 {
        Some(XGridError::ZeroArea(list, n))
    } else {
        None
    }
}

// Refuses the first exchange cell of a list that breaks a rule.
pub(crate) fn check_rows(
    list: Surface,
    air: &Mesh,
    other: &Mesh,
    rows: &[XRow],
) -> Result<(), XGridError>
    requires { length rows.now ≤ MOST_EXCHANGE_CELLS }
    ensures kept { OnOk result (first_fault (row_fault list (tiles_of air.now) (tiles_of other.now)) 0 rows.now ≡ None) }
    ensures broken { IfErr result (λ fault. first_fault (row_fault list (tiles_of air.now) (tiles_of other.now)) 0 rows.now ≡ Some fault) }
{
    for (n, row) in rows.iter().enumerate() {
        if let Some(fault) = row_fault(list, air, other, n as u32, *row) {
            return Err(fault);
        }
    }
    Ok(())
}

// The sum of the areas of exchange cells.
fn area_of(refs: &[XRef], land_rows: &[XRow], ocean_rows: &[XRow]) -> i64
    requires rows { AreRows land_rows.now ocean_rows.now }
    requires refs { AreRefs land_rows.now ocean_rows.now refs.now }
    ensures { result ≡ refs_area land_rows.now ocean_rows.now refs.now }
{
    let mut sum = 0;
    for xref in refs {
        sum += area_at(*xref, land_rows, ocean_rows);
    }
    sum
}

// The area of an exchange cell.
fn area_at(xref: XRef, land_rows: &[XRow], ocean_rows: &[XRow]) -> i64
    requires { xref.row < length (list_of land_rows.now ocean_rows.now xref.list) }
    ensures { result ≡ ref_area land_rows.now ocean_rows.now xref }
{
    match xref.list {
        Surface::Land => land_rows[xref.row as usize].area,
        Surface::Ocean => ocean_rows[xref.row as usize].area,
    }
}

// What is wrong with a cell: its exchange cells have another sum than its area.
fn sum_fault(of: Parent, cell: u32, sum: i64, area: i64) -> Option<XGridError>
    ensures { result ≡ sum_fault of cell sum area }
{
    if sum == area {
        return None;
    }
    Some(match of {
        Parent::Air => XGridError::AirSum(cell, sum, area),
        Parent::Land => XGridError::LandSum(cell, sum, area),
        Parent::Ocean => XGridError::OceanSum(cell, sum, area),
    })
}

// Refuses the least cell of a parent whose exchange cells don't sum to its area.
pub(crate) fn check_sums(
    of: Parent,
    areas: &[i64],
    groups: &Groups<XRef>,
    land_rows: &[XRow],
    ocean_rows: &[XRow],
) -> Result<(), XGridError>
    requires rows { AreRows land_rows.now ocean_rows.now }
    requires count { length areas.now ≡ length groups.now }
    requires few { length areas.now ≤ MOST_CELLS }
    requires groups { (n : ℕ) → n < length groups.now → AreRefs land_rows.now ocean_rows.now (slice_index_or groups.now n []) }
    ensures kept { OnOk result (first_fault (group_fault of land_rows.now ocean_rows.now groups.now) 0 areas.now ≡ None) }
    ensures broken { IfErr result (λ fault. first_fault (group_fault of land_rows.now ocean_rows.now groups.now) 0 areas.now ≡ Some fault) }
{
    for (n, area) in areas.iter().enumerate() {
        let sum = area_of(groups.at(n as u32), land_rows, ocean_rows);
        if let Some(fault) = sum_fault(of, n as u32, sum, *area) {
            return Err(fault);
        }
    }
    Ok(())
}

// Whether the cell of the ocean that an outlet leads to has an area.
fn has_area(ocean: &Mesh, outlet: Outlet) -> bool
    requires mesh { IsMesh ocean.now }
    requires cell { IsCellOf ocean.now.mosaic.tiles outlet.ocean }
    ensures { result ≡ not (int_eq (area_at ocean.now outlet.ocean) (pos 0)) }
{
    // The contract of `cells` has the numbers of the cells.
    let _cells = ocean.mosaic.cells();
    ocean.area.as_slice()[ocean.mosaic.number(outlet.ocean) as usize] != 0
}

// What is wrong with an outlet: a cell outside its mosaic, a cell of the ocean without area, or no weight.
fn outlet_fault(land: &Mesh, ocean: &Mesh, n: u32, outlet: Outlet) -> Option<XGridError>
    requires { IsMesh ocean.now }
    ensures { result ≡ outlet_fault land.now ocean.now n outlet }
{
    if is_cell(land.mosaic.tiles(), outlet.land)
        && is_cell(ocean.mosaic.tiles(), outlet.ocean)
        && has_area(ocean, outlet)
        && outlet.weight != 0
    {
        None
    } else {
        Some(XGridError::Outlet(n))
    }
}

// Refuses the first outlet that breaks the rule.
pub(crate) fn check_outlets(land: &Mesh, ocean: &Mesh, outlets: &[Outlet]) -> Result<(), XGridError>
    requires ocean { IsMesh ocean.now }
    requires few { length outlets.now ≤ MOST_OUTLETS }
    ensures kept { OnOk result (first_fault (outlet_fault land.now ocean.now) 0 outlets.now ≡ None) }
    ensures broken { IfErr result (λ fault. first_fault (outlet_fault land.now ocean.now) 0 outlets.now ≡ Some fault) }
{
    for (n, outlet) in outlets.iter().enumerate() {
        if let Some(fault) = outlet_fault(land, ocean, n as u32, *outlet) {
            return Err(fault);
        }
    }
    Ok(())
}

// Refuses the least cell of the land with an area and no outlet.
pub(crate) fn check_dry(areas: &[i64], groups: &Groups<u32>) -> Result<(), XGridError>
    requires count { length areas.now ≡ length groups.now }
    requires few { length areas.now ≤ MOST_CELLS }
    ensures kept { OnOk result (first_fault (dry_fault groups.now) 0 areas.now ≡ None) }
    ensures broken { IfErr result (λ fault. first_fault (dry_fault groups.now) 0 areas.now ≡ Some fault) }
{
    for (n, area) in areas.iter().enumerate() {
        if *area != 0 && groups.at(n as u32).is_empty() {
            return Err(XGridError::NoOutlet(n as u32));
        }
    }
    Ok(())
}
