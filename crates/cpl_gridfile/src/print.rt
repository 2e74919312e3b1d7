// Spelling grids.
ghost use Rattle.std.specs.Prelude.{◌≡◌, ◌++◌, ◌*◌, ◌≤◌, length, map, codes, OnOk, IfOk, Ok};
ghost use Rattle.std.specs.List.{flat_map};
ghost use Rattle.cpl_mosaic.specs.Contacts.{cells_of};
ghost use Rattle.cpl_lines.specs.Lines.{line_text, row};
ghost use Rattle.cpl_gridfile.specs.MeshFormat.{magnitude, side_letter, contact_line, row_lines, tile_lines, mesh_lines};
ghost use Rattle.cpl_xgrid.specs.Lists.{IsMesh};
ghost use Rattle.cpl_gridfile.specs.declared.next_line.GridList.TheVariants as GridList;
ghost use Rattle.cpl_gridfile.specs.CoupledGrid.{IsCoupledGrid, row_line, outlet_line, list_lines, grid_text};
ghost use Rattle.cpl_gridfile.specs.Reading.{coupled_grid_of};
ghost use Rattle.cpl_gridfile.specs.Printing.{span_text};

use crate::next_line::{GridList, GridMesh};
use cpl_lines::{print_end, print_letter, print_number, print_row};
use cpl_mosaic::{Contact, Mesh, Side, Span, Tile};
use cpl_xgrid::{Grid, Outlet, Surface, XRow};
use std::alloc::{AllocError, Global};

// An amount as the number that the text has. No amount of a grid is negative.
fn magnitude(amount: i64) -> u64
    ensures { result ≡ magnitude amount }
{
    if amount < 0 { 0 } else { amount as u64 }
}

// Puts a row of areas at the end of a text.
fn print_areas(text: &mut Vec<u8>, areas: &[i64]) -> Result<(), AllocError>
    ensures { OnOk result (text.new.items ≡ text.old.items ++ line_text (row (codes "area") (map magnitude areas.now))) }
{
    text.extend_from_slice(b"area")?;
    for area in areas {
        print_number(text, magnitude(*area))?;
    }
    print_end(text)
}

// Puts this many rows of `nx` areas each at the end of a text.
fn print_rows(text: &mut Vec<u8>, nx: u32, rows: u32, areas: &[i64]) -> Result<(), AllocError>
    requires { nx * rows ≤ length areas.now }
    ensures { OnOk result (text.new.items ≡ text.old.items ++ flat_map line_text (row_lines rows nx areas.now)) }
{
    let mut rest = areas;
    for _row in 0..rows {
        let (row, others) = rest.split_at(nx as usize);
        print_areas(text, row)?;
        rest = others;
    }
    Ok(())
}

// Puts tiles, each with its rows of areas, at the end of a text.
fn print_tiles(text: &mut Vec<u8>, tiles: &[Tile], areas: &[i64]) -> Result<(), AllocError>
    requires { cells_of tiles.now ≤ length areas.now }
    ensures { OnOk result (text.new.items ≡ text.old.items ++ flat_map line_text (tile_lines tiles.now areas.now)) }
{
    let mut rest = areas;
    for tile in tiles {
        print_row(text, b"tile", &[u64::from(tile.nx), u64::from(tile.ny)])?;
        print_rows(text, tile.nx, tile.ny, rest)?;
        let (_own, others) = rest.split_at(tile.nx as usize * tile.ny as usize);
        rest = others;
    }
    Ok(())
}

// The letter of a side.
fn side_letter(side: Side) -> u8
    ensures { result ≡ side_letter side }
{
    match side {
        Side::W => b'W',
        Side::E => b'E',
        Side::S => b'S',
        Side::N => b'N',
    }
}

// Puts the fields of a range at the end of a text.
fn print_span(text: &mut Vec<u8>, span: Span) -> Result<(), AllocError>
    ensures { OnOk result (text.new.items ≡ text.old.items ++ span_text span) }
{
    print_number(text, u64::from(span.tile))?;
    print_letter(text, side_letter(span.side))?;
    print_number(text, u64::from(span.lo))?;
    print_number(text, u64::from(span.hi))
}

// Puts a contact at the end of a text.
fn print_contact(text: &mut Vec<u8>, contact: Contact) -> Result<(), AllocError>
    ensures { OnOk result (text.new.items ≡ text.old.items ++ line_text (contact_line contact)) }
{
    text.extend_from_slice(b"contact")?;
    print_span(text, contact.first)?;
    print_span(text, contact.second)?;
    print_letter(text, if contact.flip { b'1' } else { b'0' })?;
    print_end(text)
}

// Puts contacts at the end of a text.
fn print_contacts(text: &mut Vec<u8>, contacts: &[Contact]) -> Result<(), AllocError>
    ensures { OnOk result (text.new.items ≡ text.old.items ++ flat_map line_text (map contact_line contacts.now)) }
{
    for contact in contacts {
        print_contact(text, *contact)?;
    }
    Ok(())
}

// Puts a mesh at the end of a text.
fn print_mesh(text: &mut Vec<u8>, name: GridMesh, mesh: &Mesh) -> Result<(), AllocError>
    requires { cells_of mesh.now.mosaic.tiles ≤ length mesh.now.area }
    ensures { OnOk result (text.new.items ≡ text.old.items ++ flat_map line_text (mesh_lines name mesh.now)) }
{
    let tiles = mesh.mosaic.tiles();
    let contacts = mesh.mosaic.contacts();
    print_row(text, name.word(), &[tiles.len() as u64])?;
    print_tiles(text, tiles, mesh.area.as_slice())?;
    print_row(text, b"contacts", &[contacts.len() as u64])?;
    print_contacts(text, contacts)
}

// Puts an exchange cell at the end of a text.
fn print_exchange_cell(text: &mut Vec<u8>, x: XRow) -> Result<(), AllocError>
    ensures { OnOk result (text.new.items ≡ text.old.items ++ line_text (row_line x)) }
{
    let numbers = [
        u64::from(x.air.tile),
        u64::from(x.air.i),
        u64::from(x.air.j),
        u64::from(x.other.tile),
        u64::from(x.other.i),
        u64::from(x.other.j),
        magnitude(x.area),
    ];
    print_row(text, b"x", &numbers)
}

// Puts a list of exchange cells at the end of a text.
fn print_exchange_cells(text: &mut Vec<u8>, list: GridList, rows: &[XRow]) -> Result<(), AllocError>
    ensures { OnOk result (text.new.items ≡ text.old.items ++ flat_map line_text (list_lines list (map row_line rows.now))) }
{
    print_row(text, list.word(), &[rows.len() as u64])?;
    for x in rows {
        print_exchange_cell(text, *x)?;
    }
    Ok(())
}

// Puts an outlet at the end of a text.
fn print_outlet(text: &mut Vec<u8>, outlet: Outlet) -> Result<(), AllocError>
    ensures { OnOk result (text.new.items ≡ text.old.items ++ line_text (outlet_line outlet)) }
{
    let numbers = [
        u64::from(outlet.land.tile),
        u64::from(outlet.land.i),
        u64::from(outlet.land.j),
        u64::from(outlet.ocean.tile),
        u64::from(outlet.ocean.i),
        u64::from(outlet.ocean.j),
        magnitude(outlet.weight),
    ];
    print_row(text, b"o", &numbers)
}

// Puts the outlets at the end of a text.
fn print_outlets(text: &mut Vec<u8>, outlets: &[Outlet]) -> Result<(), AllocError>
    ensures { OnOk result (text.new.items
        ≡ text.old.items ++ flat_map line_text (list_lines GridList.Outlets (map outlet_line outlets.now))) }
{
    print_row(text, b"outlets", &[outlets.len() as u64])?;
    for outlet in outlets {
        print_outlet(text, *outlet)?;
    }
    Ok(())
}

/// The text of a coupled grid whose meshes have an area for each cell: its one spelling. Reading it gives the grid back.
///
/// The format is that of `read_grid`. It takes memory for the text.
pub fn print_grid(alloc: Global, grid: &Grid) -> Result<Vec<u8>, AllocError>
    requires air { IsMesh grid.now.air }
    requires land { IsMesh grid.now.land }
    requires ocean { IsMesh grid.now.ocean }
    ensures text { IfOk result (λ text. text.items ≡ grid_text grid.now) }
    ensures again { IfOk result (λ text. IsCoupledGrid grid.now → coupled_grid_of text.items ≡ Ok grid.now) }
{
    let mut text = Vec::new(alloc);
    print_row(&mut text, b"grid 1 coupled", &[])?;
    print_mesh(&mut text, GridMesh::Atmos, &grid.air)?;
    print_mesh(&mut text, GridMesh::Land, &grid.land)?;
    print_mesh(&mut text, GridMesh::Ocean, &grid.ocean)?;
    let column = [
        u64::from(grid.column.layers),
        u64::from(grid.column.categories),
    ];
    print_row(&mut text, b"column", &column)?;
    let land_rows = grid.xgrid.rows(Surface::Land);
    print_exchange_cells(&mut text, GridList::Land, land_rows)?;
    let ocean_rows = grid.xgrid.rows(Surface::Ocean);
    print_exchange_cells(&mut text, GridList::Ocean, ocean_rows)?;
    print_outlets(&mut text, grid.xgrid.outlets())?;
    print_row(&mut text, b"end", &[])?;
    Ok(text)
}
