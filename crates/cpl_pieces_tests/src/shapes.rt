// Mosaics that the tests share, and calls that look before they ask.
ghost use Rattle.std.specs.Bool.{OnTrue};
ghost use Rattle.cpl_mosaic.specs.Sides.{IsCellOf};

use cpl_mosaic::Side::{E, N, S, W};
use cpl_mosaic::{CellId, Contact, Mosaic, MosaicError, Side, Span, Tile};
use cpl_samples::are_small_tiles;
use std::alloc::Global;

/// A contact as its line in a grid text has it: two ranges, each by tile, side and ends, and whether it is flipped.
pub(crate) type Line = ((u32, Side, u32, u32), (u32, Side, u32, u32), bool);

/// The N edge of a row of 4 cells, folded: cell 0 meets cell 3, and cell 1 meets cell 2.
pub(crate) const FOLD: Line = ((0, N, 0, 3), (0, N, 0, 3), true);

/// The two ends of a row of cells.
pub(crate) const RING: Line = ((0, W, 0, 0), (0, E, 0, 0), false);

/// The twelve edges of the cubed sphere of 2 by 2 cells a tile.
pub(crate) const CUBE: [Line; 12] = [
    ((0, E, 0, 1), (1, W, 0, 1), false),
    ((0, N, 0, 1), (2, W, 0, 1), true),
    ((0, W, 0, 1), (4, N, 0, 1), true),
    ((0, S, 0, 1), (5, N, 0, 1), false),
    ((1, N, 0, 1), (2, S, 0, 1), false),
    ((1, E, 0, 1), (3, S, 0, 1), true),
    ((1, S, 0, 1), (5, E, 0, 1), true),
    ((2, E, 0, 1), (3, W, 0, 1), false),
    ((2, N, 0, 1), (4, W, 0, 1), true),
    ((3, N, 0, 1), (4, S, 0, 1), false),
    ((3, E, 0, 1), (5, S, 0, 1), true),
    ((4, E, 0, 1), (5, W, 0, 1), false),
];

/// A mosaic by its tiles, each by its columns and rows, and its contacts.
pub(crate) type Shape = (&'static [(u32, u32)], &'static [Line]);

/// The row of 4 cells with its N edge folded.
pub(crate) const FOLDED: Shape = (&[(4, 1)], &[FOLD]);

/// One cell that meets itself.
pub(crate) const ONE_CELL: Shape = (&[(1, 1)], &[RING]);

/// The cubed sphere of 2 by 2 cells a tile.
pub(crate) const SPHERE: Shape = (&[(2, 2); 6], &CUBE);

fn span((tile, side, lo, hi): (u32, Side, u32, u32)) -> Span {
    Span { tile, side, lo, hi }
}

/// A mosaic of small tiles. Others count as no memory here.
pub(crate) fn make(
    alloc: Global,
    (tiles, lines): (&[(u32, u32)], &[Line]),
) -> Result<Mosaic, MosaicError> {
    let tiles: Vec<Tile> = tiles
        .iter()
        .map(|(nx, ny)| Tile { nx: *nx, ny: *ny })
        .collect(alloc)?;
    let contacts: Vec<Contact> = lines
        .iter()
        .map(|(first, second, flip)| Contact {
            first: span(*first),
            second: span(*second),
            flip: *flip,
        })
        .collect(alloc)?;
    if !are_small_tiles(&tiles) || contacts.len() > 256 {
        return Err(MosaicError::Memory);
    }
    Mosaic::new(alloc, &tiles, &contacts)
}

fn is_inside(mosaic: &Mosaic, cell: CellId) -> bool
    ensures { OnTrue result (IsCellOf mosaic.now.tiles cell) }
{
    match mosaic.tiles().get(cell.tile as usize) {
        Some(tile) => cell.i < tile.nx && cell.j < tile.ny,
        None => false,
    }
}

/// A cell by its tile, column and row, and one of its sides.
pub(crate) type CellSide = ((u32, u32, u32), Side);

fn cell((tile, i, j): (u32, u32, u32)) -> CellId {
    CellId { tile, i, j }
}

/// Where n steps lead out of a side of a cell. None at all where something fails.
pub(crate) fn walk(mosaic: &Mosaic, (from, side): CellSide, n: u32) -> Option<CellSide> {
    let from = cell(from);
    if n == 0 || !is_inside(mosaic, from) {
        return None;
    }
    let (met, entered) = mosaic.walk(from, side, n)?;
    Some(((met.tile, met.i, met.j), entered))
}

/// The mate of a side of a cell. None at all where something fails.
pub(crate) fn mate(mosaic: &Mosaic, (from, side): CellSide) -> Option<CellSide> {
    let from = cell(from);
    if !is_inside(mosaic, from) {
        return None;
    }
    let (met, entered) = mosaic.mate(from, side)?;
    Some(((met.tile, met.i, met.j), entered))
}

/// The number of a cell, where it is one of the mosaic.
pub(crate) fn number(mosaic: &Mosaic, id: (u32, u32, u32)) -> Option<u32> {
    let id = cell(id);
    if is_inside(mosaic, id) {
        Some(mosaic.number(id))
    } else {
        None
    }
}
