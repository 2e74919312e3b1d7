// How many equal items come before each item of a list.
ghost use Rattle.std.specs.Prelude.{◌≡◌, ◌<◌, ◌≤◌, ◌*◌, ◌+◌, length, map, IfOk};
ghost use Rattle.std.specs.List.{range_with_len};
ghost use Rattle.cpl_xgrid.specs.Groups.{AreKeys, by_key};
ghost use Rattle.cpl_wires.specs.Purposes.{purpose_place};
ghost use Rattle.cpl_wires.specs.Tables.{ends_most, HaveEnds, slot_in, poster_key, taker_key, poster, taker};

use crate::parts::{Edge, Purpose};
use cpl_xgrid::Groups;
use std::alloc::{AllocError, Global};

// Pieces of all components at most, places of purposes, and the pairs of both.
const ALL_PIECES: u32 = 256;

const PLACES: u32 = 16;

const ENDS: u32 = ALL_PIECES * PLACES;

// How often the key of each place is there before that place.
fn slots_of(alloc: Global, keys: &[u32], count: u32) -> Result<Vec<u32>, AllocError>
    requires keys { AreKeys count keys.now }
    requires few { length keys.now ≤ 65_536 }
    ensures { IfOk result (λ slots. slots.items ≡ map (slot_in keys.now) (range_with_len 0 (length keys.now))) }
{
    let mut counts = vec![in alloc; 0; count as usize]?;
    let mut slots = Vec::with_capacity(alloc, keys.len())?;
    for key in keys {
        let before = counts[*key as usize];
        slots.push(before)?;
        counts[*key as usize] = before + 1;
    }
    Ok(slots)
}

// The place of a purpose among all.
fn purpose_place(purpose: Purpose) -> u32
    ensures place { result ≡ purpose_place purpose }
    ensures few { result < 10 }
{
    match purpose {
        Purpose::AirHalo => 0,
        Purpose::LandToAir => 1,
        Purpose::IceToAir => 2,
        Purpose::AirToLand => 3,
        Purpose::AirToIce => 4,
        Purpose::LandToIce => 5,
        Purpose::IceToOcean => 6,
        Purpose::OceanToIce => 7,
        Purpose::OceanHalo => 8,
        Purpose::Sums => 9,
    }
}

// The number of a piece with a purpose.
pub(crate) fn end_number(piece: u32, purpose: Purpose) -> u32
    requires { piece < 256 }
    ensures number { result ≡ piece * 16 + purpose_place purpose }
    ensures few { result < 4_096 }
{
    piece * PLACES + purpose_place(purpose)
}

// The pieces that post.
fn posters(alloc: Global, list: &[Edge]) -> Result<Vec<u32>, AllocError>
    ensures { IfOk result (λ pieces. pieces.items ≡ map poster list.now) }
{
    list.iter().map(|edge| edge.from).collect(alloc)
}

// The pieces that take.
fn takers(alloc: Global, list: &[Edge]) -> Result<Vec<u32>, AllocError>
    ensures { IfOk result (λ pieces. pieces.items ≡ map taker list.now) }
{
    list.iter().map(|edge| edge.to).collect(alloc)
}

// The pieces that post, each with the purpose.
fn poster_keys(alloc: Global, list: &[Edge]) -> Result<Vec<u32>, AllocError>
    requires { HaveEnds list.now }
    ensures { IfOk result (λ keys. keys.items ≡ map poster_key list.now) }
{
    let mut keys = Vec::with_capacity(alloc, list.len())?;
    for edge in list {
        keys.push(end_number(edge.from, edge.purpose))?;
    }
    Ok(keys)
}

// The pieces that take, each with the purpose.
fn taker_keys(alloc: Global, list: &[Edge]) -> Result<Vec<u32>, AllocError>
    requires { HaveEnds list.now }
    ensures { IfOk result (λ keys. keys.items ≡ map taker_key list.now) }
{
    let mut keys = Vec::with_capacity(alloc, list.len())?;
    for edge in list {
        keys.push(end_number(edge.to, edge.purpose))?;
    }
    Ok(keys)
}

// The numbers of edges, by the pieces that post and the purposes.
pub(crate) fn posted_edges(alloc: Global, list: &[Edge]) -> Result<Groups<u32>, AllocError>
    requires ends { HaveEnds list.now }
    requires few { length list.now ≤ 65_536 }
    ensures { IfOk result (λ groups. groups ≡ by_key ends_most (map poster_key list.now)) }
{
    let keys = poster_keys(alloc, list)?;
    Groups::by_key(alloc, &keys, ENDS)
}

// The numbers of edges, by the pieces that take and the purposes.
pub(crate) fn taken_edges(alloc: Global, list: &[Edge]) -> Result<Groups<u32>, AllocError>
    requires ends { HaveEnds list.now }
    requires few { length list.now ≤ 65_536 }
    ensures { IfOk result (λ groups. groups ≡ by_key ends_most (map taker_key list.now)) }
{
    let keys = taker_keys(alloc, list)?;
    Groups::by_key(alloc, &keys, ENDS)
}

// The slots of edges at the pieces that post.
pub(crate) fn post_slots(alloc: Global, list: &[Edge]) -> Result<Vec<u32>, AllocError>
    requires ends { HaveEnds list.now }
    requires few { length list.now ≤ 65_536 }
    ensures { IfOk result (λ slots. slots.items ≡ map (slot_in (map poster list.now)) (range_with_len 0 (length (map poster list.now)))) }
{
    let keys = posters(alloc, list)?;
    slots_of(alloc, &keys, ALL_PIECES)
}

// The slots of edges at the pieces that take.
pub(crate) fn take_slots(alloc: Global, list: &[Edge]) -> Result<Vec<u32>, AllocError>
    requires ends { HaveEnds list.now }
    requires few { length list.now ≤ 65_536 }
    ensures { IfOk result (λ slots. slots.items ≡ map (slot_in (map taker list.now)) (range_with_len 0 (length (map taker list.now)))) }
{
    let keys = takers(alloc, list)?;
    slots_of(alloc, &keys, ALL_PIECES)
}
