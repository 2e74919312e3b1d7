// The lines of exchange cells and outlets.
ghost use Rattle.std.specs.Prelude.{◌≡◌};
ghost use Rattle.cpl_lines.specs.Reading.{fields_at, row_at};
ghost use Rattle.cpl_lines.specs.Lines.{row_form};
ghost use Rattle.cpl_lines.specs.Finding.{Finds};
ghost use Rattle.cpl_gridfile.specs.Readers.{cell_kinds, cell_fields_of, item_line_of};

use cpl_lines::{line_end, number, word};
use cpl_mosaic::CellId;

/// A cell as it is spelled. Its numbers may break the limits.
#[derive(Clone, Copy)]
pub(crate) struct CellNumbers {
    pub tile: u64,
    pub i: u64,
    pub j: u64,
}

/// An item as it is spelled. Its numbers may break the limits.
#[derive(Clone, Copy)]
pub(crate) struct ItemNumbers {
    pub from: CellNumbers,
    pub to: CellNumbers,
    pub amount: u64,
}

/// What an exchange cell and an outlet have in common: two cells, and the area that they share or the weight of the way.
#[derive(Clone, Copy)]
pub(crate) struct Item {
    pub from: CellId,
    pub to: CellId,
    pub amount: i64,
}

// The fields of a cell.
fn cell(bytes: &[u8]) -> Option<(CellNumbers, &[u8])>
    ensures { Finds (λ found. (cell_fields_of found.0, found.1.now)) result (fields_at cell_kinds bytes.now) }
{
    let (tile, rest) = number(bytes)?;
    let (i, rest) = number(rest)?;
    let (j, rest) = number(rest)?;
    Some((CellNumbers { tile, i, j }, rest))
}

/// The numbers of an item after this word, and the rest after the line.
#[tactic(auto, unfolding(cpl_lines::specs::Reading::row_at))]
pub(crate) fn item_line<'a>(bytes: &'a [u8], name: &[u8]) -> Option<(ItemNumbers, &'a [u8])>
    ensures { Finds (λ found. (item_line_of name.now found.0, found.1.now)) result (row_at (row_form name.now 7) bytes.now) }
{
    let (from, rest) = cell(word(bytes, name)?)?;
    let (to, rest) = cell(rest)?;
    let (amount, rest) = number(rest)?;
    Some((ItemNumbers { from, to, amount }, line_end(rest)?))
}
