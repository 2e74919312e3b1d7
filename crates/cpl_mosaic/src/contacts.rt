// The sides that a contact joins, and two rules of contacts: ranges, and no side that meets itself.
ghost use Rattle.std.specs.Prelude.{◌≡◌, ◌+◌, ◌-◌, ◌*◌, ◌^◌, ◌<◌, ◌≤◌, true, length, All, Some, None, OnOk, IfErr, slice_index_or};
ghost use Rattle.cpl_mosaic.specs.Sides.{IsEdgeSide};
ghost use Rattle.cpl_mosaic.specs.Contacts.{IsTile, span_length, span_is_inside, is_in_range, joined_pair, joins_of, meets_itself, range_fault, self_meeting_fault};

use crate::sides::{edge_length, edge_side, is_same_side};
use crate::{CellId, Contact, MosaicError, Side, Span, Tile};
use cpl_fixed::{LONGEST_SIDE, MOST_CONTACTS};

// Whether a range lies in the mosaic, its ends in order.
pub(crate) fn span_is_inside(tiles: &[Tile], span: Span) -> bool
    ensures { result ≡ span_is_inside tiles.now span }
{
    match tiles.get(span.tile as usize) {
        Some(tile) => span.lo <= span.hi && span.hi < edge_length(*tile, span.side),
        None => false,
    }
}

// How many sides a range has.
pub(crate) fn span_length(span: Span) -> u32
    requires { span_length span ≤ LONGEST_SIDE }
    ensures { result ≡ span_length span }
{
    span.hi.saturating_sub(span.lo) + 1
}

// Whether both ranges of a contact lie in the mosaic, their ends in order, and are equally long.
pub(crate) fn is_in_range(tiles: &[Tile], contact: Contact) -> bool
    ensures { result ≡ is_in_range tiles.now contact }
{
    span_is_inside(tiles, contact.first)
        && span_is_inside(tiles, contact.second)
        && contact.first.hi - contact.first.lo == contact.second.hi - contact.second.lo
}

// Refuses the first contact with a range that breaks the rule.
pub(crate) fn check_ranges(tiles: &[Tile], contacts: &[Contact]) -> Result<(), MosaicError>
    requires { length contacts.now ≤ MOST_CONTACTS }
    ensures kept { OnOk result (range_fault tiles.now contacts.now ≡ None) }
    ensures broken { IfErr result (λ fault. range_fault tiles.now contacts.now ≡ Some fault) }
{
    for (n, contact) in contacts.iter().enumerate() {
        if !is_in_range(tiles, *contact) {
            return Err(MosaicError::ContactRange(n as u32));
        }
    }
    Ok(())
}

// The k-th pair of sides that a contact joins.
pub(crate) fn joined_pair(
    tiles: &[Tile],
    contact: Contact,
    k: u32,
) -> ((CellId, Side), (CellId, Side))
    requires sizes { All IsTile tiles.now }
    requires range { is_in_range tiles.now contact ≡ true }
    requires within { k < span_length contact.first }
    ensures { result ≡ joined_pair tiles.now contact k }
{
    let Contact {
        first,
        second,
        flip,
    } = contact;
    let other = if flip { second.hi - k } else { second.lo + k };
    (
        edge_side(tiles, first.tile, first.side, first.lo + k),
        edge_side(tiles, second.tile, second.side, other),
    )
}

// The m-th join of a contact: its pairs, and then the same pairs, each seen from its second side.
pub(crate) fn join_at(tiles: &[Tile], contact: Contact, m: u32) -> ((CellId, Side), (CellId, Side))
    requires sizes { All IsTile tiles.now }
    requires range { is_in_range tiles.now contact ≡ true }
    requires within { m < 2 * span_length contact.first }
    ensures join { slice_index_or (joins_of tiles.now contact) m result ≡ result }
    ensures edge { IsEdgeSide tiles.now result.0 }
{
    let count = span_length(contact.first);
    if m < count {
        joined_pair(tiles, contact, m)
    } else {
        let (first, second) = joined_pair(tiles, contact, m - count);
        (second, first)
    }
}

// Whether a contact joins a side to itself.
pub(crate) fn meets_itself(tiles: &[Tile], contact: Contact) -> bool
    requires sizes { All IsTile tiles.now }
    requires range { is_in_range tiles.now contact ≡ true }
    ensures { result ≡ meets_itself tiles.now contact }
{
    for k in 0..span_length(contact.first) {
        let (first, second) = joined_pair(tiles, contact, k);
        if is_same_side(first, second) {
            return true;
        }
    }
    false
}

// Refuses the first contact that joins a side to itself.
pub(crate) fn check_self_meetings(tiles: &[Tile], contacts: &[Contact]) -> Result<(), MosaicError>
    requires sizes { All IsTile tiles.now }
    requires ranges { All (λ contact. is_in_range tiles.now contact ≡ true) contacts.now }
    requires few { length contacts.now ≤ MOST_CONTACTS }
    ensures kept { OnOk result (self_meeting_fault tiles.now contacts.now ≡ None) }
    ensures broken { IfErr result (λ fault. self_meeting_fault tiles.now contacts.now ≡ Some fault) }
{
    for (n, contact) in contacts.iter().enumerate() {
        if meets_itself(tiles, *contact) {
            return Err(MosaicError::SelfMeet(n as u32));
        }
    }
    Ok(())
}
