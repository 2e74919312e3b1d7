// The limits of a line's numbers. Each function answers the numbers in their types exactly where they keep the limits.
ghost use Rattle.cpl_gridfile.specs.Readers.{Keeps};
ghost use Rattle.cpl_gridfile.specs.GridFormat.{column_of, column_keeps_limits};
ghost use Rattle.cpl_mkx.specs.BoxFormat.{size_keeps_limits};

use cpl_fixed::{LONGEST_SIDE, MOST_CATEGORIES, MOST_CELLS, MOST_LAYERS};
use cpl_xgrid::Column;

/// 1 to 1,024 columns and rows, of at most 2^18 boxes.
pub(crate) fn size(nx: u64, ny: u64) -> Option<(u32, u32)>
    ensures nx { Keeps (λ size. size.0) (size_keeps_limits nx ny) nx result }
    ensures ny { Keeps (λ size. size.1) (size_keeps_limits nx ny) ny result }
{
    let longest = u64::from(LONGEST_SIDE);
    if nx < 1 || longest < nx || ny < 1 || longest < ny || u64::from(MOST_CELLS) < nx * ny {
        return None;
    }
    Some((nx as u32, ny as u32))
}

/// 1 to 8 layers and 1 to 5 categories.
pub(crate) fn column(layers: u64, categories: u64) -> Option<Column>
    ensures { Keeps (λ column. column) (column_keeps_limits (column_of layers categories)) (column_of layers categories) result }
{
    if layers < 1
        || u64::from(MOST_LAYERS) < layers
        || categories < 1
        || u64::from(MOST_CATEGORIES) < categories
    {
        return None;
    }
    Some(Column {
        layers: layers as u32,
        categories: categories as u32,
    })
}
