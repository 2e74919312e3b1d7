// The lists of each cell of an exchange grid, made as its rules are judged.
ghost use Rattle.std.specs.Prelude.{◌≡◌, None, IfOk, OnOk, IfErr};
ghost use Rattle.cpl_xgrid.specs.Lists.{IsMesh, AreRows, AreOutlets, lists_of};
ghost use Rattle.cpl_xgrid.specs.Rules.{xgrid_fault, IsFirstFault};
ghost use Rattle.cpl_xgrid.specs.Indexes.{IsKept};

use crate::refs::{outlets_of, sum_parent};
use crate::rules::{Parent, check_outlets, check_rows};
use crate::{Groups, Outlet, Surface, XGridError, XRef, XRow};
use cpl_mosaic::Mesh;
use std::alloc::Global;

// The exchange cells of each cell of a parent, and the outlets of each cell of the land.
#[derive(Drop)]
pub(crate) struct Indexes {
    pub(crate) air: Groups<XRef>,
    pub(crate) land: Groups<XRef>,
    pub(crate) ocean: Groups<XRef>,
    pub(crate) runoff: Groups<u32>,
}

// The lists of each cell. The first broken rule decides.
pub(crate) fn indexes_of(
    alloc: Global,
    air: &Mesh,
    land: &Mesh,
    ocean: &Mesh,
    land_rows: &[XRow],
    ocean_rows: &[XRow],
    outlets: &[Outlet],
) -> Result<Indexes, XGridError>
    requires air { IsMesh air.now }
    requires land { IsMesh land.now }
    requires ocean { IsMesh ocean.now }
    requires rows { AreRows land_rows.now ocean_rows.now }
    requires outlets { AreOutlets outlets.now }
    ensures kept { IfOk result (λ indexes. IsKept (lists_of air.now land.now ocean.now land_rows.now ocean_rows.now outlets.now) indexes.air indexes.land indexes.ocean indexes.runoff) }
    ensures rules { OnOk result (xgrid_fault air.now land.now ocean.now land_rows.now ocean_rows.now outlets.now ≡ None) }
    ensures fault { IfErr result (IsFirstFault (xgrid_fault air.now land.now ocean.now land_rows.now ocean_rows.now outlets.now)) }
{
    check_rows(Surface::Land, air, land, land_rows)?;
    check_rows(Surface::Ocean, air, ocean, ocean_rows)?;
    let of_air = sum_parent(alloc, Parent::Air, air, land_rows, ocean_rows)?;
    let of_land = sum_parent(alloc, Parent::Land, land, land_rows, ocean_rows)?;
    let of_ocean = sum_parent(alloc, Parent::Ocean, ocean, land_rows, ocean_rows)?;
    check_outlets(land, ocean, outlets)?;
    let runoff = outlets_of(alloc, land, outlets)?;
    Ok(Indexes {
        air: of_air,
        land: of_land,
        ocean: of_ocean,
        runoff,
    })
}
