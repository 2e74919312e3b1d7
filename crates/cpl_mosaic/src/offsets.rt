// Where the cells and the edge sides of each tile begin.
ghost use Rattle.std.specs.Prelude.{◌≡◌, ◌<◌, IfOk};
ghost use Rattle.cpl_mosaic.specs.Sides.{IsCellOf};
ghost use Rattle.cpl_mosaic.specs.Contacts.{IsTile, AreTiles};
ghost use Rattle.cpl_mosaic.specs.Table.{offsets_of, sides_of, place_in, place_of};

use crate::{CellId, Side, Tile};
use std::alloc::{AllocError, Global};

// How many cells and how many sides along edges the tiles before one have.
#[derive(Clone, Copy)]
pub(crate) struct TileOffset {
    pub(crate) cells: u32,
    pub(crate) sides: u32,
}

// The offset of each tile, and after them the totals.
pub(crate) fn offsets_of(alloc: Global, tiles: &[Tile]) -> Result<Vec<TileOffset>, AllocError>
    requires { AreTiles tiles.now }
    ensures { IfOk result (λ offsets. offsets.items ≡ offsets_of tiles.now) }
{
    let mut offsets = Vec::with_capacity(alloc, tiles.len() + 1)?;
    let mut next = TileOffset { cells: 0, sides: 0 };
    offsets.push(next)?;
    for tile in tiles {
        next = TileOffset {
            cells: next.cells + tile.nx * tile.ny,
            sides: next.sides + 2 * (tile.nx + tile.ny),
        };
        offsets.push(next)?;
    }
    Ok(offsets)
}

// The place of a side along an edge among those of its tile: W, E, S, N, each edge in its order.
fn place_on_tile(tile: Tile, cell: CellId, side: Side) -> u32
    requires tile { IsTile tile }
    requires column { cell.i < tile.nx }
    requires row { cell.j < tile.ny }
    ensures { result ≡ place_in tile cell side }
{
    match side {
        Side::W => cell.j,
        Side::E => tile.ny + cell.j,
        Side::S => 2 * tile.ny + cell.i,
        Side::N => 2 * tile.ny + tile.nx + cell.i,
    }
}

// The place of a side along an edge among those of all tiles.
pub(crate) fn place(tiles: &[Tile], offsets: &[TileOffset], cell: CellId, side: Side) -> usize
    requires sizes { AreTiles tiles.now }
    requires offsets { offsets.now ≡ offsets_of tiles.now }
    requires cell { IsCellOf tiles.now cell }
    ensures place { result ≡ place_of tiles.now (cell, side) }
    ensures within { result < sides_of tiles.now }
{
    let t = cell.tile as usize;
    (offsets[t].sides + place_on_tile(tiles[t], cell, side)) as usize
}
