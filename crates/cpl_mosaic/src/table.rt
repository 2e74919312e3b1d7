// The table of what contacts join to the sides along the edges of tiles.
ghost use Rattle.std.specs.Prelude.{◌≡◌, ◌<◌, ◌≤◌, [], true, length, All, IfOk, IfErr, OnOk, Some, None, slice_index_or};
ghost use Rattle.std.specs.Bool.{OnTrue, OnFalse};
ghost use Rattle.std.specs.List.{list_any};
ghost use Rattle.cpl_mosaic.specs.Contacts.{AreTiles, is_in_range, joins_of, all_joins, twice_fault, IsFirstFault};
ghost use Rattle.cpl_mosaic.specs.Table.{IsTable, offsets_of, sides_of, is_taken, put, with_joins};

use crate::contacts::{join_at, span_length};
use crate::offsets::{TileOffset, place};
use crate::sides::is_same_side;
use crate::{CellId, Contact, MosaicError, Side, Tile};
use cpl_fixed::MOST_CONTACTS;
use std::alloc::{AllocError, Global};

// A table of walls alone.
fn table_of_walls(
    alloc: Global,
    tiles: &[Tile],
    offsets: &[TileOffset],
) -> Result<Vec<Option<(CellId, Side)>>, AllocError>
    requires { offsets.now ≡ offsets_of tiles.now }
    ensures { IfOk result (λ table. IsTable tiles.now [] table.items) }
{
    vec![in alloc; None; offsets[tiles.len()].sides as usize]
}

// Whether the table has something at a side that the contact joins.
fn is_taken(
    tiles: &[Tile],
    offsets: &[TileOffset],
    contact: Contact,
    table: &[Option<(CellId, Side)>],
) -> bool
    requires sizes { AreTiles tiles.now }
    requires offsets { offsets.now ≡ offsets_of tiles.now }
    requires range { is_in_range tiles.now contact ≡ true }
    requires table { length table.now ≡ sides_of tiles.now }
    ensures { result ≡ list_any (is_taken tiles.now table.now) (joins_of tiles.now contact) }
{
    for m in 0..2 * span_length(contact.first) {
        let ((cell, side), _) = join_at(tiles, contact, m);
        if table[place(tiles, offsets, cell, side)].is_some() {
            return true;
        }
    }
    false
}

// Puts a side at a place of the table, and says false where another side stands there.
fn put(table: &mut [Option<(CellId, Side)>], at: usize, to: (CellId, Side)) -> bool
    requires { at < length table.old }
    ensures fits { OnTrue result (put table.old at to (slice_index_or table.old at None) ≡ Some table.new) }
    ensures refused { OnFalse result (put table.old at to (slice_index_or table.old at None) ≡ None) }
{
    match table[at] {
        Some(other) => is_same_side(other, to),
        None => {
            table[at] = Some(to);
            true
        }
    }
}

// Adds the joins of a contact to the table, and says false where they join one side to two different sides.
fn join(
    tiles: &[Tile],
    offsets: &[TileOffset],
    contact: Contact,
    table: &mut [Option<(CellId, Side)>],
) -> bool
    requires sizes { AreTiles tiles.now }
    requires offsets { offsets.now ≡ offsets_of tiles.now }
    requires range { is_in_range tiles.now contact ≡ true }
    requires table { length table.old ≡ sides_of tiles.now }
    ensures fits { OnTrue result (with_joins tiles.now (joins_of tiles.now contact) table.old ≡ Some table.new) }
    ensures refused { OnFalse result (with_joins tiles.now (joins_of tiles.now contact) table.old ≡ None) }
{
    for m in 0..2 * span_length(contact.first) {
        let ((cell, side), to) = join_at(tiles, contact, m);
        if !put(table, place(tiles, offsets, cell, side), to) {
            return false;
        }
    }
    true
}

// Joins all contacts, one after the other, and stops at the first that joins a side twice.
fn join_all(
    tiles: &[Tile],
    offsets: &[TileOffset],
    contacts: &[Contact],
    table: &mut [Option<(CellId, Side)>],
) -> Result<(), MosaicError>
    requires sizes { AreTiles tiles.now }
    requires offsets { offsets.now ≡ offsets_of tiles.now }
    requires ranges { All (λ contact. is_in_range tiles.now contact ≡ true) contacts.now }
    requires few { length contacts.now ≤ MOST_CONTACTS }
    requires table { IsTable tiles.now [] table.old }
    ensures kept { OnOk result (twice_fault tiles.now contacts.now ≡ None) }
    ensures table { OnOk result (IsTable tiles.now (all_joins tiles.now contacts.now) table.new) }
    ensures broken { IfErr result (λ fault. twice_fault tiles.now contacts.now ≡ Some fault) }
{
    for (n, contact) in contacts.iter().enumerate() {
        if is_taken(tiles, offsets, *contact, table) {
            return Err(MosaicError::ContactTwice(n as u32));
        }
        if !join(tiles, offsets, *contact, table) {
            return Err(MosaicError::ContactTwice(n as u32));
        }
    }
    Ok(())
}

// The table of all contacts, or the first contact that joins a side twice.
pub(crate) fn joined_table(
    alloc: Global,
    tiles: &[Tile],
    offsets: &[TileOffset],
    contacts: &[Contact],
) -> Result<Vec<Option<(CellId, Side)>>, MosaicError>
    requires sizes { AreTiles tiles.now }
    requires offsets { offsets.now ≡ offsets_of tiles.now }
    requires ranges { All (λ contact. is_in_range tiles.now contact ≡ true) contacts.now }
    requires few { length contacts.now ≤ MOST_CONTACTS }
    ensures kept { OnOk result (twice_fault tiles.now contacts.now ≡ None) }
    ensures table { IfOk result (λ table. IsTable tiles.now (all_joins tiles.now contacts.now) table.items) }
    ensures broken { IfErr result (IsFirstFault (twice_fault tiles.now contacts.now)) }
{
    let mut table = table_of_walls(alloc, tiles, offsets)?;
    join_all(tiles, offsets, contacts, &mut table)?;
    Ok(table)
}
