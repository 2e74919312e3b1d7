// A world with a rotated contact in the air, and with a fold in the ocean. Expected edges are worked out by hand.
//
// The air has two tiles of 2 by 2 cells, each cut into two columns: the pieces 0 and 1, and 2 and 3. The upper edge of the first tile meets
// the left edge of the second, turned: its left cell the upper one there, and its right cell the lower one.
//
//        0   1                   2   3
//      +---+---+               +---+---+
//      | a | b |   N of a is   | a'|   |
//      +---+---+   W of a',    +---+---+
//      |   |   |   of b is b'  | b'|   |
//      +---+---+               +---+---+
//
// The ocean has one tile of 4 by 2 cells whose upper edge is folded: column 0 meets column 3, and column 1 column 2. It is cut into the
// columns 0, 1 and 2, 3: the pieces 7 and 8. The ice has the rows of that tile: the pieces 5 and 6. The land, piece 4, is dry.
use crate::compare::{Edges, Row};
use crate::worlds::{Question, World, holds};
use cpl_mosaic::Side;
use cpl_mosaic::Side::{E, N, S, W};
use cpl_strip::{FaceStrip, Hole, Strip};
use cpl_wires::Exchanges;
use cpl_wires::Purpose::*;
use std::alloc::{AllocError, Global};
use std::test::Fail;

/// Cell n of the air, in whole order, lies over cell 7 - n of the ocean. The file has them by 2, 5, 0, 7, 3, 4, 6, 1.
pub(crate) const FOLDED: World = (
    "grid 1 coupled
mosaic atmos 2\ntile 2 2\narea 2 2\narea 2 2\ntile 2 2\narea 2 2\narea 2 2\ncontacts 1\ncontact 0 N 0 1 1 W 0 1 1
mosaic land 1\ntile 1 1\narea 0\ncontacts 0
mosaic ocean 1\ntile 4 2\narea 2 2 2 2\narea 2 2 2 2\ncontacts 1\ncontact 0 N 0 3 0 N 0 3 1
column 2 1
xgrid land 0
xgrid ocean 8
x 0 0 1 0 1 1 2
x 1 1 0 0 2 0 2
x 0 0 0 0 3 1 2
x 1 1 1 0 0 0 2
x 0 1 1 0 0 1 2
x 1 0 0 0 3 0 2
x 1 0 1 0 1 0 2
x 0 1 0 0 2 1 2
outlets 0
end
",
    "&coupler_nml current_date = 2001,3,1,0,0,0, calendar = 'gregorian', hours = 3, dt_atmos = 1800, dt_cpld = 3600 /
&ocean_nml dt_ocean = 1200 /
&layout_nml atmos_layout = 2,1, ice_layout = 1,2, ocean_layout = 2,1 /
",
);

/// Three coupling steps, each of two fast steps and three ocean steps; two layers, and a category beside the open water. The ocean's halo
/// is of eight places each way, and its four faces go from piece 7 to piece 8, whose sides come second.
const EDGES: [Row; 35] = [
    (AirHalo, 0, 1, 4, 6, &[]),
    (AirHalo, 0, 2, 2, 6, &[]),
    (AirHalo, 1, 0, 4, 6, &[]),
    (AirHalo, 1, 2, 2, 6, &[]),
    (AirHalo, 2, 0, 2, 6, &[]),
    (AirHalo, 2, 1, 2, 6, &[]),
    (AirHalo, 2, 3, 4, 6, &[]),
    (AirHalo, 3, 2, 4, 6, &[]),
    (IceToAir, 5, 2, 16, 6, &[5, 6]),
    (IceToAir, 5, 3, 16, 6, &[1, 3]),
    (IceToAir, 6, 0, 16, 6, &[0, 2]),
    (IceToAir, 6, 1, 16, 6, &[4, 7]),
    (AirToIce, 0, 6, 16, 6, &[0, 2]),
    (AirToIce, 1, 6, 16, 6, &[4, 7]),
    (AirToIce, 2, 5, 16, 6, &[5, 6]),
    (AirToIce, 3, 5, 16, 6, &[1, 3]),
    (IceToOcean, 5, 7, 6, 2, &[0, 1]),
    (IceToOcean, 5, 8, 6, 2, &[2, 3]),
    (IceToOcean, 6, 7, 6, 2, &[4, 5]),
    (IceToOcean, 6, 8, 6, 2, &[6, 7]),
    (OceanToIce, 7, 5, 10, 2, &[0, 1]),
    (OceanToIce, 7, 6, 10, 2, &[4, 5]),
    (OceanToIce, 8, 5, 10, 2, &[2, 3]),
    (OceanToIce, 8, 6, 10, 2, &[6, 7]),
    (OceanHalo, 7, 8, 56, 9, &[]),
    (OceanHalo, 8, 7, 48, 9, &[]),
    (Sums, 0, 0, 168, 4, &[]),
    (Sums, 1, 0, 168, 4, &[]),
    (Sums, 2, 0, 168, 4, &[]),
    (Sums, 3, 0, 168, 4, &[]),
    (Sums, 4, 0, 168, 4, &[]),
    (Sums, 5, 0, 168, 4, &[]),
    (Sums, 6, 0, 168, 4, &[]),
    (Sums, 7, 0, 168, 4, &[]),
    (Sums, 8, 0, 168, 4, &[]),
];

#[test]
fn edges_of_a_folded_world(rt: HostRuntime) -> Result<(), Fail> {
    let edges = Edges { rows: &EDGES };
    assert!(rt; holds(rt.alloc(), FOLDED, &edges)?);
    Ok(())
}

/// The number of an edge that is a halo, and each hole of the piece that takes, by its side, place along the side and depth, with the place
/// in the piece that posts.
type Links = (u32, &'static [((Side, u32, u32), (u32, u32))]);

/// Piece 2 takes b and a to the left of b' and a', and pieces 0 and 1 take a' and b' above a and b. Two cells deep, the ocean goes on
/// downwards in the column that the fold leads to.
const HALOS: [Links; 10] = [
    (0, &[((W, 0, 1), (0, 0)), ((W, 1, 1), (0, 1))]),
    (1, &[((W, 1, 1), (0, 1))]),
    (2, &[((E, 0, 1), (0, 0)), ((E, 1, 1), (0, 1))]),
    (3, &[((W, 0, 1), (0, 1))]),
    (4, &[((N, 0, 1), (0, 1))]),
    (5, &[((N, 0, 1), (0, 0))]),
    (6, &[((W, 0, 1), (0, 0)), ((W, 1, 1), (0, 1))]),
    (7, &[((E, 0, 1), (0, 0)), ((E, 1, 1), (0, 1))]),
    (
        24,
        &[
            ((W, 0, 1), (1, 0)),
            ((W, 1, 1), (1, 1)),
            ((N, 0, 1), (1, 1)),
            ((N, 1, 1), (0, 1)),
            ((W, 0, 2), (0, 0)),
            ((W, 1, 2), (0, 1)),
            ((N, 0, 2), (1, 0)),
            ((N, 1, 2), (0, 0)),
        ],
    ),
    (
        25,
        &[
            ((E, 0, 1), (0, 0)),
            ((E, 1, 1), (0, 1)),
            ((N, 0, 1), (1, 1)),
            ((N, 1, 1), (0, 1)),
            ((E, 0, 2), (1, 0)),
            ((E, 1, 2), (1, 1)),
            ((N, 0, 2), (1, 0)),
            ((N, 1, 2), (0, 0)),
        ],
    ),
];

// Whether a strip has these links alone, in this order.
fn strip_is(strip: &Strip, wanted: &[((Side, u32, u32), (u32, u32))]) -> bool {
    let (places, holes) = (strip.places.as_slice(), strip.holes.as_slice());
    if places.len() != wanted.len() || holes.len() != wanted.len() {
        return false;
    }
    for (((side, at, depth), from), (place, hole)) in wanted.iter().zip(places.iter().zip(holes)) {
        let (side, at, depth) = (*side, *at, *depth);
        if *place != *from || *hole != (Hole { side, at, depth }) {
            return false;
        }
    }
    true
}

// Whether these are the halos of the edges of these numbers.
fn halos_are(exchanges: &Exchanges, wanted: &[Links]) -> bool {
    for (number, links) in wanted {
        if *number >= exchanges.edge_count() {
            return false;
        }
        match exchanges.strip(*number) {
            Some(strip) if strip_is(strip, links) => {}
            _ => return false,
        }
    }
    true
}

#[derive(Drop)]
struct Halos;

impl Question for Halos {
    fn holds(&self, _alloc: Global, exchanges: &Exchanges) -> Result<bool, AllocError> {
        Ok(halos_are(exchanges, &HALOS))
    }
}

#[test]
fn halos_through_a_fold_and_a_turn(rt: HostRuntime) -> Result<(), Fail> {
    assert!(rt; holds(rt.alloc(), FOLDED, &Halos)?);
    Ok(())
}

/// The faces between the two pieces of the ocean: first sides, which piece 7 has, beside second sides.
const FACES: [((u32, u32, Side), (u32, u32, Side)); 4] = [
    ((1, 0, E), (0, 0, W)),
    ((1, 1, E), (0, 1, W)),
    ((1, 1, N), (0, 1, N)),
    ((0, 1, N), (1, 1, N)),
];

// Whether a face strip has these faces alone, in this order.
fn faces_are(strip: &FaceStrip, wanted: &[((u32, u32, Side), (u32, u32, Side))]) -> bool {
    let (sources, targets) = (strip.sources.as_slice(), strip.targets.as_slice());
    if sources.len() != wanted.len() || targets.len() != wanted.len() {
        return false;
    }
    for ((first, second), (source, target)) in wanted.iter().zip(sources.iter().zip(targets)) {
        if *source != *first || *target != *second {
            return false;
        }
    }
    true
}

/// Only the edge from 7 to 8 carries faces, and an edge of exchange cells has no strip.
#[derive(Drop)]
struct Faces;

impl Question for Faces {
    fn holds(&self, _alloc: Global, exchanges: &Exchanges) -> Result<bool, AllocError> {
        if exchanges.edge_count() != 35 {
            return Ok(false);
        }
        let found = match exchanges.face_strip(24) {
            Some(strip) => faces_are(strip, &FACES),
            None => false,
        };
        Ok(
            found
                && exchanges.face_strip(25).is_none()
                && exchanges.face_strip(0).is_none()
                && exchanges.strip(8).is_none(),
        )
    }
}

#[test]
fn faces_through_a_fold(rt: HostRuntime) -> Result<(), Fail> {
    assert!(rt; holds(rt.alloc(), FOLDED, &Faces)?);
    Ok(())
}
