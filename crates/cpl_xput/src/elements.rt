// How many elements the cells of the air have.
ghost use Rattle.std.specs.Prelude.{◌≡◌, ◌<◌, ◌≤◌, length, IfOk};
ghost use Rattle.cpl_fixed.specs.declared.limits.TheConstants.{MOST_CATEGORIES, MOST_EXCHANGE_CELLS};
ghost use Rattle.cpl_mosaic.specs.Contacts.{cells_of};
ghost use Rattle.cpl_mosaic.specs.Cells.{cell_of};
ghost use Rattle.cpl_xgrid.specs.Grids.{IsGrid};
ghost use Rattle.cpl_xgrid.specs.Indexes.{for_cells};
ghost use Rattle.cpl_xgrid.specs.Rules.{tiles_of};
ghost use Rattle.cpl_xput.specs.Exchanges.{elements_on, elements_in, elements_of};

use cpl_xgrid::{Grid, Surface, XRef};
use std::alloc::{AllocError, Global};

// How many elements an exchange cell of a list has.
fn elements_on(categories: u32, list: Surface) -> u32
    requires { categories ≤ MOST_CATEGORIES }
    ensures { result ≡ elements_on categories list }
{
    match list {
        Surface::Land => 1,
        Surface::Ocean => categories + 1,
    }
}

// How many elements exchange cells have.
fn elements_in(categories: u32, refs: &[XRef]) -> u32
    requires categories { categories ≤ MOST_CATEGORIES }
    requires few { length refs.now ≤ MOST_EXCHANGE_CELLS }
    ensures { result ≡ elements_in categories refs.now }
{
    let mut count = 0;
    for xref in refs {
        count += elements_on(categories, xref.list);
    }
    count
}

// How many elements a cell of the air has, by its number.
fn elements_at(grid: &Grid, cell: u32) -> u32
    requires grid { IsGrid grid.now }
    requires cell { cell < cells_of (tiles_of grid.now.air) }
    ensures { result ≡ elements_of grid.now (cell_of (tiles_of grid.now.air) cell) }
{
    elements_in(grid.column.categories, grid.xgrid.cells_of_air(cell))
}

// How many elements each cell of the air has, in whole order.
pub(crate) fn elements_of(alloc: Global, grid: &Grid) -> Result<Vec<u32>, AllocError>
    requires { IsGrid grid.now }
    ensures { IfOk result (λ counts. counts.items ≡ for_cells (tiles_of grid.now.air) (elements_of grid.now)) }
{
    let cells = grid.air.mosaic.cells();
    let mut counts = Vec::with_capacity(alloc, cells as usize)?;
    for cell in 0..cells {
        counts.push(elements_at(grid, cell))?;
    }
    Ok(counts)
}
