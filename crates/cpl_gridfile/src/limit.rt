// The limits of a line's numbers. Each function answers the numbers in their types exactly where they keep the limits.
ghost use Rattle.std.specs.Prelude.{◌≡◌, ◌+◌, ◌*◌, ◌&&◌, nat_le};
ghost use Rattle.cpl_fixed.specs.declared.limits.TheConstants.{MOST_CONTACTS, MOST_TILES};
ghost use Rattle.cpl_gridfile.specs.MeshFormat.{side_of, tile_of, tile_keeps_limits, span_keeps_limits, contact_keeps_limits};
ghost use Rattle.cpl_gridfile.specs.GridFormat.{column_of, column_keeps_limits, cell_keeps_limits, most_items};
ghost use Rattle.cpl_gridfile.specs.Readers.{Keeps, span_of_numbers, contact_of_numbers, cell_of_numbers, item_of_numbers, item_keeps_limits};

use crate::contact::{ContactNumbers, SpanNumbers};
use crate::item::{CellNumbers, Item, ItemNumbers};
use crate::next_line::GridList;
use cpl_fixed::{
    LONGEST_SIDE, MOST_CATEGORIES, MOST_CELLS, MOST_CONTACTS, MOST_IN_ROW, MOST_LAYERS, MOST_TILES,
};
use cpl_mosaic::{CellId, Contact, Side, Span, Tile};
use cpl_xgrid::Column;

/// How many tiles a mosaic has: 1 to 16.
pub(crate) fn tile_count(count: u64) -> Option<u32>
    ensures { Keeps (λ count. count) (nat_le 1 count && nat_le count MOST_TILES) count result }
{
    if count < 1 || u64::from(MOST_TILES) < count {
        return None;
    }
    Some(count as u32)
}

/// A tile of 1 to 1,024 by 1 to 1,024 cells, and how many cells there are with it, at most 2^18.
pub(crate) fn tile(nx: u64, ny: u64, cells: u32) -> Option<(Tile, u32)>
    ensures tile { Keeps (λ found. found.0) (tile_keeps_limits cells nx ny) (tile_of nx ny) result }
    ensures cells { Keeps (λ found. found.1) (tile_keeps_limits cells nx ny) (cells + nx * ny) result }
{
    let longest = u64::from(LONGEST_SIDE);
    if nx < 1 || longest < nx || ny < 1 || longest < ny {
        return None;
    }
    let cells = u64::from(cells) + nx * ny;
    if u64::from(MOST_CELLS) < cells {
        return None;
    }
    let tile = Tile {
        nx: nx as u32,
        ny: ny as u32,
    };
    Some((tile, cells as u32))
}

/// How many contacts there are: at most 256.
pub(crate) fn contact_count(count: u64) -> Option<u32>
    ensures { Keeps (λ count. count) (nat_le count MOST_CONTACTS) count result }
{
    if u64::from(MOST_CONTACTS) < count {
        return None;
    }
    Some(count as u32)
}

// The side that a letter names.
fn side(letter: u8) -> Side
    ensures { result ≡ side_of letter }
{
    match letter {
        b'W' => Side::W,
        b'E' => Side::E,
        b'S' => Side::S,
        _ => Side::N,
    }
}

// A range whose numbers are at most 65,535.
fn span(numbers: SpanNumbers) -> Option<Span>
    ensures { Keeps (λ span. span) (span_keeps_limits (span_of_numbers numbers)) (span_of_numbers numbers) result }
{
    if MOST_IN_ROW < numbers.tile || MOST_IN_ROW < numbers.lo || MOST_IN_ROW < numbers.hi {
        return None;
    }
    Some(Span {
        tile: numbers.tile as u32,
        side: side(numbers.side),
        lo: numbers.lo as u32,
        hi: numbers.hi as u32,
    })
}

/// A contact whose numbers are at most 65,535.
pub(crate) fn contact(numbers: ContactNumbers) -> Option<Contact>
    ensures { Keeps (λ contact. contact) (contact_keeps_limits (contact_of_numbers numbers)) (contact_of_numbers numbers) result }
{
    Some(Contact {
        first: span(numbers.first)?,
        second: span(numbers.second)?,
        flip: numbers.flip == b'1',
    })
}

/// 1 to 8 layers and 1 to 5 categories.
pub(crate) fn column(layers: u64, categories: u64) -> Option<Column>
    ensures { Keeps (λ column. column) (column_keeps_limits (column_of layers categories)) (column_of layers categories) result }
{
    if layers < 1
        || u64::from(MOST_LAYERS) < layers
        || categories < 1
        || u64::from(MOST_CATEGORIES) < categories
    {
        return None;
    }
    Some(Column {
        layers: layers as u32,
        categories: categories as u32,
    })
}

/// How many items a list has, and how many there are with those before, within the limit of the list.
pub(crate) fn item_count(list: GridList, before: u32, count: u64) -> Option<(u32, u32)>
    ensures count { Keeps (λ found. found.0) (nat_le (before + count) (most_items list)) count result }
    ensures total { Keeps (λ found. found.1) (nat_le (before + count) (most_items list)) (before + count) result }
{
    let most = u64::from(list.most());
    let before = u64::from(before);
    if most < before || most - before < count {
        return None;
    }
    Some((count as u32, (before + count) as u32))
}

// A cell whose numbers are at most 65,535.
fn cell(numbers: CellNumbers) -> Option<CellId>
    ensures { Keeps (λ cell. cell) (cell_keeps_limits (cell_of_numbers numbers)) (cell_of_numbers numbers) result }
{
    if MOST_IN_ROW < numbers.tile || MOST_IN_ROW < numbers.i || MOST_IN_ROW < numbers.j {
        return None;
    }
    Some(CellId {
        tile: numbers.tile as u32,
        i: numbers.i as u32,
        j: numbers.j as u32,
    })
}

/// An item of cells whose numbers are at most 65,535, with an area or a weight within the limit of the list.
pub(crate) fn item(list: GridList, numbers: ItemNumbers) -> Option<Item>
    ensures { Keeps (λ item. item) (item_keeps_limits list numbers) (item_of_numbers numbers) result }
{
    let from = cell(numbers.from)?;
    let to = cell(numbers.to)?;
    if list.most_amount() < numbers.amount {
        return None;
    }
    Some(Item {
        from,
        to,
        amount: numbers.amount as i64,
    })
}
