// The areas of cells, as sums over their exchange cells.
ghost use Rattle.std.specs.Prelude.{◌≡◌, ◌≤◌, All, IfOk, length, map};
ghost use Rattle.cpl_fixed.specs.declared.limits.TheConstants.{MOST_EXCHANGE_CELLS};
ghost use Rattle.cpl_xgrid.specs.Lists.{IsArea};
ghost use Rattle.cpl_xgrid.specs.Rows.{other_cell};
ghost use Rattle.cpl_xgrid.specs.Indexes.{AreCells};
ghost use Rattle.cpl_xgrid.specs.declared.parts.XRow.{XRow as XRowValue};
ghost use Rattle.cpl_made_grid.specs.Areas.{sums_of};

use cpl_mosaic::Mosaic;
use cpl_xgrid::XRow;
use std::alloc::{AllocError, Global};

// The sums of the areas of exchange cells by the cells of a mosaic.
pub(crate) fn sums_of(alloc: Global, mosaic: &Mosaic, rows: &[XRow]) -> Result<Vec<i64>, AllocError>
    requires cells { AreCells mosaic.now.tiles (map other_cell rows.now) }
    requires areas { All (λ (row : XRowValue). IsArea row.area) rows.now }
    requires few { length rows.now ≤ MOST_EXCHANGE_CELLS }
    ensures { IfOk result (λ sums. sums.items ≡ sums_of mosaic.now.tiles rows.now) }
{
    let mut sums = vec![in alloc; 0i64; mosaic.cells() as usize]?;
    for row in rows {
        sums[mosaic.number(row.other) as usize] += row.area;
    }
    Ok(sums)
}
