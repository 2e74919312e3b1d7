// The exchange cells of each piece, by the places of their cells in it.
ghost use Rattle.std.specs.Prelude.{◌≡◌, ◌<◌, ◌≤◌, ◌^◌, length, map, IfOk};
ghost use Rattle.cpl_fixed.specs.declared.limits.TheConstants.{MOST_EXCHANGE_CELLS};
ghost use Rattle.cpl_mosaic.specs.Sides.{IsCellOf};
ghost use Rattle.cpl_layout.specs.Owners.{OwnersAgree};
ghost use Rattle.cpl_layout.specs.Pieces.{owner_of};
ghost use Rattle.cpl_xgrid.specs.Indexes.{AreCells};
ghost use Rattle.cpl_xput.specs.Places.{place_of, for_pieces};

use cpl_layout::Layout;
use cpl_mosaic::CellId;
use cpl_xgrid::Groups;
use std::alloc::{AllocError, Global};

// The place of a cell in the piece that it lies in.
fn place_of(layout: &Layout, cell: CellId) -> u32
    requires { IsCellOf layout.now.tiles cell }
    ensures { result ≡ place_of layout.now cell }
{
    let piece = layout.piece(layout.owner(cell));
    (cell.j - piece.j0) * piece.nx + (cell.i - piece.i0)
}

// The places of cells.
fn places_of(alloc: Global, layout: &Layout, cells: &[CellId]) -> Result<Vec<u32>, AllocError>
    requires { AreCells layout.now.tiles cells.now }
    ensures { IfOk result (λ places. places.items ≡ map (place_of layout.now) cells.now) }
{
    let mut places = Vec::with_capacity(alloc, cells.len())?;
    for cell in cells {
        places.push(place_of(layout, *cell))?;
    }
    Ok(places)
}

// The pieces that cells lie in.
fn owners_of(alloc: Global, layout: &Layout, cells: &[CellId]) -> Result<Vec<u32>, AllocError>
    requires { AreCells layout.now.tiles cells.now }
    ensures { IfOk result (λ owners. owners.items ≡ map (owner_of layout.now) cells.now) }
{
    let mut owners = Vec::with_capacity(alloc, cells.len())?;
    for cell in cells {
        owners.push(layout.owner(*cell))?;
    }
    Ok(owners)
}

// The places of the cells of a list in each piece, in order.
pub(crate) fn for_pieces(
    alloc: Global,
    layout: &Layout,
    cells: &[CellId],
) -> Result<Groups<u32>, AllocError>
    requires cells { AreCells layout.now.tiles cells.now }
    requires few { length cells.now ≤ MOST_EXCHANGE_CELLS }
    ensures places { IfOk result (λ groups. groups ≡ for_pieces layout.now cells.now) }
    ensures owners { OwnersAgree layout.now }
{
    let count = layout.pieces();
    let owners = owners_of(alloc, layout, cells)?;
    let places = places_of(alloc, layout, cells)?;
    let groups = Groups::by_key(alloc, &owners, count)?;
    groups.pick(alloc, &places, 0)
}
