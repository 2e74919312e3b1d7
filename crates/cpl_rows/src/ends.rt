// The cells that exchange cells, outlets and cells are of.
ghost use Rattle.std.specs.Prelude.{◌≡◌, ◌*◌, ◌<◌, ◌≤◌, length, IfOk, All, map, slice_index_or};
ghost use Rattle.cpl_fixed.specs.declared.limits.TheConstants.{MOST_EXCHANGE_CELLS};
ghost use Rattle.cpl_mosaic.specs.Sides.{IsCellOf};
ghost use Rattle.cpl_layout.specs.Owners.{Holds, IsPiece};
ghost use Rattle.cpl_layout.specs.Own.{place_number};
ghost use Rattle.cpl_layout.specs.Pieces.{pieces_of};
ghost use Rattle.cpl_xgrid.specs.Grids.{IsGrid};
ghost use Rattle.cpl_rows.specs.Ends.{ends_of, cells_by, cell_by, items_in, place_by, no_cell};

use cpl_layout::{Layout, Piece};
use cpl_mosaic::CellId;
use cpl_wires::Purpose;
use cpl_xgrid::{Grid, Surface};
use std::alloc::{AllocError, Global};

/// An end of an edge: the piece that posts, or the piece that takes.
#[derive(Clone, Copy)]
pub(crate) enum End {
    From,
    To,
}

// How many exchange cells, outlets or cells edges of a purpose carry together.
fn count_of(grid: &Grid, purpose: Purpose) -> u32
    requires { IsGrid grid.now }
    ensures count { result ≡ length (ends_of grid.now purpose) }
    ensures few { result ≤ MOST_EXCHANGE_CELLS }
{
    match purpose {
        Purpose::LandToAir | Purpose::AirToLand => grid.xgrid.rows(Surface::Land).len() as u32,
        Purpose::IceToAir | Purpose::AirToIce => grid.xgrid.rows(Surface::Ocean).len() as u32,
        Purpose::LandToIce => grid.xgrid.outlets().len() as u32,
        Purpose::IceToOcean | Purpose::OceanToIce => grid.ocean.mosaic.cells(),
        Purpose::AirHalo | Purpose::OceanHalo | Purpose::Sums => 0,
    }
}

// The cells of an exchange cell, an outlet or a cell, that of the giver first.
fn ends_at(grid: &Grid, purpose: Purpose, item: u32) -> (CellId, CellId)
    requires { item < length (ends_of grid.now purpose) }
    ensures { result ≡ slice_index_or (ends_of grid.now purpose) item (no_cell, no_cell) }
{
    match purpose {
        Purpose::LandToAir => {
            let row = grid.xgrid.rows(Surface::Land)[item as usize];
            (row.other, row.air)
        }
        Purpose::IceToAir => {
            let row = grid.xgrid.rows(Surface::Ocean)[item as usize];
            (row.other, row.air)
        }
        Purpose::AirToLand => {
            let row = grid.xgrid.rows(Surface::Land)[item as usize];
            (row.air, row.other)
        }
        Purpose::AirToIce => {
            let row = grid.xgrid.rows(Surface::Ocean)[item as usize];
            (row.air, row.other)
        }
        Purpose::LandToIce => {
            let outlet = grid.xgrid.outlets()[item as usize];
            (outlet.land, outlet.ocean)
        }
        Purpose::IceToOcean | Purpose::OceanToIce => {
            let cell = grid.ocean.mosaic.cell(item);
            (cell, cell)
        }
        Purpose::AirHalo | Purpose::OceanHalo | Purpose::Sums => unreachable!(),
    }
}

// The cell of an exchange cell, an outlet or a cell at one end of its edge.
fn cell_at(grid: &Grid, purpose: Purpose, end: End, item: u32) -> CellId
    requires { item < length (ends_of grid.now purpose) }
    ensures { result ≡ cell_by grid.now purpose end item }
{
    let (from, to) = ends_at(grid, purpose, item);
    match end {
        End::From => from,
        End::To => to,
    }
}

// The exchange cells, outlets or cells whose cells at one end lie in a piece, in the order of the file.
pub(crate) fn items_in(
    alloc: Global,
    grid: &Grid,
    purpose: Purpose,
    end: End,
    layout: &Layout,
    p: u32,
) -> Result<Vec<u32>, AllocError>
    requires grid { IsGrid grid.now }
    requires cells { All (IsCellOf layout.now.tiles) (cells_by grid.now purpose end) }
    ensures { IfOk result (λ items. items.items ≡ items_in layout.now p (cells_by grid.now purpose end)) }
{
    let mut items = Vec::new(alloc);
    for item in 0..count_of(grid, purpose) {
        if layout.owner(cell_at(grid, purpose, end, item)) == p {
            items.push(item)?;
        }
    }
    Ok(items)
}

// Where a cell stands in a piece, row by row.
fn place_of(piece: Piece, cell: CellId) -> u32
    requires piece { IsPiece piece }
    requires cell { Holds piece cell }
    ensures place { result ≡ place_number piece cell }
    ensures within { result < piece.nx * piece.ny }
{
    (cell.j - piece.j0) * piece.nx + (cell.i - piece.i0)
}

// Where the cells of exchange cells, outlets or cells stand in a piece.
pub(crate) fn places_in(
    alloc: Global,
    grid: &Grid,
    purpose: Purpose,
    end: End,
    piece: Piece,
    items: &[u32],
) -> Result<Vec<u32>, AllocError>
    requires piece { IsPiece piece }
    requires items { All (λ item. item < length (ends_of grid.now purpose)) items.now }
    requires cells { All (λ item. Holds piece (cell_by grid.now purpose end item)) items.now }
    ensures { IfOk result (λ places. places.items ≡ map (place_by grid.now purpose end piece) items.now) }
{
    let mut places = Vec::with_capacity(alloc, items.len())?;
    for item in items {
        places.push(place_of(piece, cell_at(grid, purpose, end, *item)))?;
    }
    Ok(places)
}
