// Cells of a mosaic: which there are, and the cells of a list by their numbers.
ghost use Rattle.std.specs.Prelude.{◌≡◌, ◌≤◌, length, map, IfOk};
ghost use Rattle.cpl_fixed.specs.declared.limits.TheConstants.{MOST_EXCHANGE_CELLS};
ghost use Rattle.cpl_mosaic.specs.Cells.{number_of};
ghost use Rattle.cpl_xgrid.specs.Rows.{is_cell};
ghost use Rattle.cpl_xgrid.specs.Indexes.{AreCells, by_cell};

use crate::Groups;
use cpl_mosaic::{CellId, Mosaic, Tile};
use std::alloc::{AllocError, Global};

// Whether a cell lies in a tile of a mosaic.
pub(crate) fn is_cell(tiles: &[Tile], cell: CellId) -> bool
    ensures { result ≡ is_cell tiles.now cell }
{
    match tiles.get(cell.tile as usize) {
        Some(tile) => cell.i < tile.nx && cell.j < tile.ny,
        None => false,
    }
}

// The numbers of cells in whole order.
fn numbers_of(alloc: Global, mosaic: &Mosaic, cells: &[CellId]) -> Result<Vec<u32>, AllocError>
    requires { AreCells mosaic.now.tiles cells.now }
    ensures { IfOk result (λ numbers. numbers.items ≡ map (number_of mosaic.now.tiles) cells.now) }
{
    let mut numbers = Vec::with_capacity(alloc, cells.len())?;
    for cell in cells {
        numbers.push(mosaic.number(*cell))?;
    }
    Ok(numbers)
}

/// The numbers of the cells of a list, grouped by the cells of the mosaic in whole order. It takes linear time.
pub fn by_cell(alloc: Global, mosaic: &Mosaic, cells: &[CellId]) -> Result<Groups<u32>, AllocError>
    requires cells { AreCells mosaic.now.tiles cells.now }
    requires few { length cells.now ≤ MOST_EXCHANGE_CELLS }
    ensures { IfOk result (λ groups. groups ≡ by_cell mosaic.now.tiles cells.now) }
{
    let count = mosaic.cells();
    let numbers = numbers_of(alloc, mosaic, cells)?;
    Groups::by_key(alloc, &numbers, count)
}
