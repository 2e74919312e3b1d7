// The example of one column. Expected edges and scripts are written out by hand. The pieces are 0 of the air, 1 of the land, 2 of the ice
// and 3 of the ocean. One cell has no halo.
use crate::compare::Wanted::{Compute, Post, Take};
use crate::compare::{Edges, Row, Scripts, Wanted};
use crate::worlds::{Question, World, holds};
use cpl_fixed::Component;
use cpl_wires::Purpose::*;
use cpl_wires::{Exchanges, edge_law, few_law, schedule_law, stop_law, time_law, wired_law};
use std::alloc::{AllocError, Global};
use std::test::Fail;

/// One cell of the air of area 16 over 4 of land and 12 of ocean, with one outlet of weight 1. Two coupling steps, each of two fast steps
/// and one ocean step.
pub(crate) const COLUMN: World = (
    "grid 1 coupled
mosaic atmos 1\ntile 1 1\narea 16\ncontacts 0
mosaic land 1\ntile 1 1\narea 4\ncontacts 0
mosaic ocean 1\ntile 1 1\narea 12\ncontacts 0
column 1 1
xgrid land 1\nx 0 0 0 0 0 0 4
xgrid ocean 1\nx 0 0 0 0 0 0 12
outlets 1\no 0 0 0 0 0 0 1
end
",
    "&coupler_nml current_date = 2001,3,1,0,0,0, calendar = 'gregorian', hours = 2, dt_atmos = 1800, dt_cpld = 3600 /
&ocean_nml dt_ocean = 3600 /
",
);

const EDGES: [Row; 11] = [
    (LandToAir, 1, 0, 2, 4, &[0]),
    (IceToAir, 2, 0, 8, 4, &[0]),
    (AirToLand, 0, 1, 4, 4, &[0]),
    (AirToIce, 0, 2, 8, 4, &[0]),
    (LandToIce, 1, 2, 2, 2, &[0]),
    (IceToOcean, 2, 3, 3, 1, &[0]),
    (OceanToIce, 3, 2, 5, 1, &[0]),
    (Sums, 0, 0, 168, 3, &[]),
    (Sums, 1, 0, 168, 3, &[]),
    (Sums, 2, 0, 168, 3, &[]),
    (Sums, 3, 0, 168, 3, &[]),
];

#[test]
fn edges_of_a_column(rt: HostRuntime) -> Result<(), Fail> {
    let edges = Edges { rows: &EDGES };
    assert!(rt; holds(rt.alloc(), COLUMN, &edges)?);
    Ok(())
}

/// Sums, twice a coupling step's two fast steps with the sums after it.
const AIR: [Wanted; 46] = [
    Post(7),
    Take(7),
    Take(8),
    Take(9),
    Take(10),
    Compute,
    Take(0),
    Take(1),
    Compute,
    Post(2),
    Post(3),
    Compute,
    Compute,
    Take(0),
    Take(1),
    Compute,
    Post(2),
    Post(3),
    Compute,
    Compute,
    Post(7),
    Take(7),
    Take(8),
    Take(9),
    Take(10),
    Compute,
    Take(0),
    Take(1),
    Compute,
    Post(2),
    Post(3),
    Compute,
    Compute,
    Take(0),
    Take(1),
    Compute,
    Post(2),
    Post(3),
    Compute,
    Compute,
    Post(7),
    Take(7),
    Take(8),
    Take(9),
    Take(10),
    Compute,
];

/// In each coupling step two fast steps, and the runoff.
const LAND: [Wanted; 19] = [
    Post(8),
    Post(0),
    Take(2),
    Compute,
    Post(0),
    Take(2),
    Compute,
    Compute,
    Post(4),
    Post(8),
    Post(0),
    Take(2),
    Compute,
    Post(0),
    Take(2),
    Compute,
    Compute,
    Post(4),
    Post(8),
];

/// What flew to the ice stands in the start; nothing flies on at the end.
const ICE: [Wanted; 23] = [
    Post(9),
    Compute,
    Post(1),
    Take(3),
    Compute,
    Post(1),
    Take(3),
    Compute,
    Take(4),
    Compute,
    Post(5),
    Post(9),
    Take(6),
    Compute,
    Post(1),
    Take(3),
    Compute,
    Post(1),
    Take(3),
    Compute,
    Take(4),
    Compute,
    Post(9),
];

/// So it is with the ocean. Its step has no halo to hand over.
const OCEAN: [Wanted; 13] = [
    Post(10),
    Compute,
    Compute,
    Compute,
    Compute,
    Post(6),
    Post(10),
    Take(5),
    Compute,
    Compute,
    Compute,
    Compute,
    Post(10),
];

const SCRIPTS: [&'static [Wanted]; 4] = [&AIR, &LAND, &ICE, &OCEAN];

#[test]
fn scripts_of_a_column(rt: HostRuntime) -> Result<(), Fail> {
    let scripts = Scripts { scripts: &SCRIPTS };
    assert!(rt; holds(rt.alloc(), COLUMN, &scripts)?);
    Ok(())
}

/// What the remaining calls answer.
#[derive(Drop)]
struct Numbers;

impl Question for Numbers {
    fn holds(&self, _alloc: Global, exchanges: &Exchanges) -> Result<bool, AllocError> {
        if exchanges.piece_count() != 4 || exchanges.edge_count() != 11 {
            return Ok(false);
        }
        let grids = exchanges.grid().column.layers == 1 && exchanges.names().steps == 2;
        let pieces = exchanges.component(3) == Component::Ocean
            && exchanges.base(Component::Ice) == 2
            && exchanges.pieces_in(Component::Land) == 1
            && exchanges.layout(Component::Atmos).pieces() == 1;
        let slots = exchanges.posted(0, Sums) == [7].as_slice()
            && exchanges.taken(0, Sums) == [7, 8, 9, 10].as_slice()
            && exchanges.post_slot(7) == 2
            && exchanges.take_slot(10) == 5;
        let strips = exchanges.strip(7).is_none() && exchanges.face_strip(7).is_none();
        Ok(grids && pieces && slots && strips)
    }
}

#[test]
fn numbers_of_a_column(rt: HostRuntime) -> Result<(), Fail> {
    assert!(rt; holds(rt.alloc(), COLUMN, &Numbers)?);
    Ok(())
}

/// Each law once; they do nothing.
#[test]
fn laws_are_called() {
    edge_law();
    few_law();
    stop_law();
    wired_law();
    time_law();
    schedule_law();
}
