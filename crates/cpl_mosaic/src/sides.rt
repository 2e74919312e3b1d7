// Sides of cells, inside a tile and along its edges.
ghost use Rattle.std.specs.Prelude.{◌≡◌, ◌<◌, length, All};
ghost use Rattle.cpl_mosaic.specs.Sides.{is_same_side, neighbour, opposite, edge_length, edge_side};
ghost use Rattle.cpl_mosaic.specs.Contacts.{IsTile};

use crate::{CellId, Side, Tile};

/// The side across a cell from this one.
pub fn opposite(side: Side) -> Side
    ensures { result ≡ opposite side }
{
    match side {
        Side::W => Side::E,
        Side::E => Side::W,
        Side::S => Side::N,
        Side::N => Side::S,
    }
}

// Whether two sides of cells are one.
pub(crate) fn is_same_side(a: (CellId, Side), b: (CellId, Side)) -> bool
    ensures { result ≡ is_same_side a b }
{
    a == b
}

// The cell across a side, in the same tile.
pub(crate) fn neighbour(tile: Tile, cell: CellId, side: Side) -> Option<CellId>
    requires column { cell.i < tile.nx }
    requires row { cell.j < tile.ny }
    ensures { result ≡ neighbour tile cell side }
{
    match side {
        Side::W if cell.i > 0 => Some(CellId {
            i: cell.i - 1,
            ..cell
        }),
        Side::E if cell.i + 1 < tile.nx => Some(CellId {
            i: cell.i + 1,
            ..cell
        }),
        Side::S if cell.j > 0 => Some(CellId {
            j: cell.j - 1,
            ..cell
        }),
        Side::N if cell.j + 1 < tile.ny => Some(CellId {
            j: cell.j + 1,
            ..cell
        }),
        _ => None,
    }
}

// How many sides an edge of a tile has.
pub(crate) fn edge_length(tile: Tile, side: Side) -> u32
    ensures { result ≡ edge_length tile side }
{
    match side {
        Side::W | Side::E => tile.ny,
        Side::S | Side::N => tile.nx,
    }
}

// The k-th side along an edge of a tile.
pub(crate) fn edge_side(tiles: &[Tile], t: u32, side: Side, k: u32) -> (CellId, Side)
    requires sizes { All IsTile tiles.now }
    requires tile { t < length tiles.now }
    ensures { result ≡ edge_side tiles.now t side k }
{
    let tile = tiles[t as usize];
    let (i, j) = match side {
        Side::W => (0, k),
        Side::E => (tile.nx - 1, k),
        Side::S => (k, 0),
        Side::N => (k, tile.ny - 1),
    };
    (CellId { tile: t, i, j }, side)
}
