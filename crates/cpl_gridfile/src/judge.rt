// Judging the rules of a grid whose lines are read.
ghost use Rattle.std.specs.Prelude.{◌≡◌, position};
ghost use Rattle.cpl_fixed.specs.Results.{Returns};
ghost use Rattle.cpl_gridfile.specs.Faults.{is_memory};
ghost use Rattle.cpl_gridfile.specs.Within.{IsWithinLimits, AreWithinLimits};
ghost use Rattle.cpl_gridfile.specs.Rules.{is_zero, of_contacts, mosaic_fault};
ghost use Rattle.cpl_gridfile.specs.Grids.{judged};
ghost use Rattle.cpl_gridfile.specs.AirGrid.{air_fault};
ghost use Rattle.cpl_gridfile.specs.CoupledGrid.{coupled_fault, grid_of};
ghost use Rattle.cpl_gridfile.specs.Readers.{mesh_of, parts_of};

use crate::GridError;
use crate::mesh::MeshParts;
use crate::reader::Reader;
use cpl_fixed::{Component, List};
use cpl_mosaic::{Mesh, Mosaic, MosaicError};
use cpl_xgrid::{Grid, XGrid};
use std::alloc::Global;

// The fault of a grid whose contacts have this fault.
fn contact_fault(component: Component, fault: MosaicError) -> GridError
    ensures { result ≡ of_contacts component fault }
{
    match fault {
        MosaicError::ContactRange(contact) => GridError::ContactRange(component, contact),
        MosaicError::ContactTwice(contact) => GridError::ContactTwice(component, contact),
        MosaicError::SelfMeet(contact) => GridError::SelfMeet(component, contact),
        MosaicError::Memory => GridError::Memory,
    }
}

// The mesh that was read, where its contacts keep the rules.
fn mesh(alloc: Global, component: Component, parts: MeshParts) -> Result<Mesh, GridError>
    requires { IsWithinLimits (mesh_of parts) }
    ensures { Returns is_memory result (judged (mosaic_fault component (mesh_of parts)) (mesh_of parts)) }
{
    match Mosaic::new(alloc, &parts.tiles, &parts.contacts) {
        Ok(mosaic) => Ok(Mesh {
            mosaic,
            area: List::from_vec(parts.area),
        }),
        Err(fault) => Err(contact_fault(component, fault)),
    }
}

// The least cell without area.
fn without_area(area: &[i64]) -> Option<usize>
    ensures { result ≡ position is_zero area.now }
{
    area.iter().position(|area| *area == 0)
}

/// The mesh of the air that was read, where it keeps the rules.
pub(crate) fn air(alloc: Global, parts: MeshParts) -> Result<Mesh, GridError>
    requires { IsWithinLimits (mesh_of parts) }
    ensures { Returns is_memory result (judged (air_fault (mesh_of parts)) (mesh_of parts)) }
{
    if let Some(cell) = without_area(&parts.area) {
        return Err(GridError::Area(Component::Atmos, cell as u32));
    }
    mesh(alloc, Component::Atmos, parts)
}

/// The coupled grid that was read, where it keeps the rules.
pub(crate) fn coupled(alloc: Global, reader: Reader) -> Result<Grid, GridError>
    requires { AreWithinLimits (parts_of reader) }
    ensures { Returns is_memory result (judged (coupled_fault (parts_of reader)) (grid_of (parts_of reader))) }
{
    let air = air(alloc, reader.air)?;
    let land = mesh(alloc, Component::Land, reader.land)?;
    let ocean = mesh(alloc, Component::Ocean, reader.ocean)?;
    let xgrid = XGrid::build(
        alloc,
        &air,
        &land,
        &ocean,
        reader.land_rows,
        reader.ocean_rows,
        reader.outlets,
    )?;
    Ok(Grid {
        air,
        land,
        ocean,
        xgrid,
        column: reader.column,
    })
}
