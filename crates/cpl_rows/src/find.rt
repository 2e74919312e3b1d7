// Where exchange cells and outlets stand in the lists that a piece takes.
ghost use Rattle.std.specs.Prelude.{◌≡◌, ◌≢◌, ◌<◌, ◌≤◌, ℕ, length, map, IfOk, All, MatchOption, slice_index};
ghost use Rattle.cpl_fixed.specs.declared.limits.TheConstants.{MOST_EXCHANGE_CELLS};
ghost use Rattle.cpl_xgrid.specs.Grids.{IsGrid};
ghost use Rattle.cpl_wires.specs.Settings.{IsSetting};
ghost use Rattle.cpl_wires.specs.Edges.{edges_of};
ghost use Rattle.cpl_rows.specs.Rows.{items_on};
ghost use Rattle.cpl_rows.specs.Found.{IsRising, StandsIn, IsAt, AreAt};

use crate::place::RowPlace;
use cpl_wires::Exchanges;
use std::alloc::{AllocError, Global};

// The place of a number among rising ones. None exactly where it is not there.
fn place_in(numbers: &[u32], number: u32) -> Option<u32>
    requires rising { IsRising numbers.now }
    requires few { length numbers.now ≤ MOST_EXCHANGE_CELLS }
    ensures { MatchOption result ((k : ℕ) → k < length numbers.now → slice_index numbers.now k ≢ number) (λ place. (place < length numbers.now) × (slice_index numbers.now place ≡ number)) }
{
    match numbers.binary_search(&number) {
        Ok(place) => Some(place as u32),
        Err(_) => None,
    }
}

// Where an exchange cell or an outlet stands in what these edges carry.
fn place_of(exchanges: &Exchanges, edges: &[u32], item: u32) -> RowPlace
    requires setting { IsSetting exchanges.now }
    requires grid { IsGrid exchanges.now.grid }
    requires few { length edges.now ≤ 37_120 }
    requires edges { All (λ edge. edge < length (edges_of exchanges.now)) edges.now }
    requires item { StandsIn (map (items_on exchanges.now) edges.now) item }
    ensures { IsAt (map (items_on exchanges.now) edges.now) item result }
{
    for (edge, number) in edges.iter().enumerate() {
        if let Some(place) = place_in(exchanges.carried(*number), item) {
            return RowPlace {
                edge: edge as u32,
                place,
            };
        }
    }
    unreachable!()
}

// Where exchange cells or outlets stand in what these edges carry.
pub(crate) fn places_of(
    alloc: Global,
    exchanges: &Exchanges,
    edges: &[u32],
    items: &[u32],
) -> Result<Vec<RowPlace>, AllocError>
    requires setting { IsSetting exchanges.now }
    requires grid { IsGrid exchanges.now.grid }
    requires few { length edges.now ≤ 37_120 }
    requires edges { All (λ edge. edge < length (edges_of exchanges.now)) edges.now }
    requires items { All (StandsIn (map (items_on exchanges.now) edges.now)) items.now }
    ensures { IfOk result (λ places. AreAt (map (items_on exchanges.now) edges.now) items.now places.items) }
{
    let mut places = Vec::with_capacity(alloc, items.len())?;
    for item in items {
        places.push(place_of(exchanges, edges, *item))?;
    }
    Ok(places)
}
