// Worked cases of contacts, of the order of their rules, and of numbers.
use crate::shapes::{
    CellSide, FOLD, FOLDED, Line, ONE_CELL, RING, SPHERE, Shape, make, mate, number, walk,
};
use cpl_mosaic::MosaicError::{ContactRange, ContactTwice, SelfMeet};
use cpl_mosaic::Side::{E, N, S, W};
use cpl_mosaic::{MosaicError, Side};
use std::test::Fail;

/// Two cells that share two faces.
const TWO_CELLS: Shape = (&[(2, 1)], &[RING]);

/// A part of the E edge that meets a part of the S edge.
const TURNED: Shape = (&[(3, 3)], &[((0, E, 0, 1), (0, S, 1, 2), false)]);

// A side of a cell of the first tile, by column and row, and its mate.
type Place = (u32, u32, Side);

const MATES: [(Shape, Place, Option<Place>); 20] = [
    (FOLDED, (0, 0, N), Some((3, 0, N))),
    (FOLDED, (1, 0, N), Some((2, 0, N))),
    (FOLDED, (2, 0, N), Some((1, 0, N))),
    (FOLDED, (3, 0, N), Some((0, 0, N))),
    (FOLDED, (0, 0, E), Some((1, 0, W))),
    (FOLDED, (0, 0, S), None),
    (FOLDED, (0, 0, W), None),
    (ONE_CELL, (0, 0, W), Some((0, 0, E))),
    (ONE_CELL, (0, 0, E), Some((0, 0, W))),
    (ONE_CELL, (0, 0, N), None),
    (TWO_CELLS, (0, 0, W), Some((1, 0, E))),
    (TWO_CELLS, (1, 0, E), Some((0, 0, W))),
    (TWO_CELLS, (0, 0, E), Some((1, 0, W))),
    (TWO_CELLS, (1, 0, W), Some((0, 0, E))),
    (TURNED, (2, 0, E), Some((1, 0, S))),
    (TURNED, (2, 0, S), Some((2, 1, E))),
    (TURNED, (2, 2, E), None),
    (TURNED, (0, 0, S), None),
    (TURNED, (1, 1, N), Some((1, 2, S))),
    (TURNED, (1, 1, S), Some((1, 0, N))),
];

#[test]
fn sides_meet_inside_tiles_and_by_contacts(rt: HostRuntime) -> Result<(), Fail> {
    for (shape, (i, j, side), want) in MATES {
        let mosaic = make(rt.alloc(), shape)?;
        let met = mate(&mosaic, ((0, i, j), side));
        let want = want.map(|(i, j, side)| ((0, i, j), side));
        assert_eq!(rt; met, want, "at {i} {j} {side:?}");
    }
    Ok(())
}

// Where walks from the N side of cell (0, 1) of tile 0 lead: round the sphere and back.
const WALKS: [(u32, CellSide); 3] = [
    (1, ((2, 0, 1), W)),
    (2, ((2, 1, 1), W)),
    (8, ((0, 0, 1), S)),
];

// The sides of a tile that lie on its edges.
const EDGES: [Place; 8] = [
    (0, 0, W),
    (0, 1, W),
    (1, 0, E),
    (1, 1, E),
    (0, 0, S),
    (1, 0, S),
    (0, 1, N),
    (1, 1, N),
];

#[test]
fn the_cubed_sphere_has_no_wall(rt: HostRuntime) -> Result<(), Fail> {
    let sphere = make(rt.alloc(), SPHERE)?;
    for (n, want) in WALKS {
        let led = walk(&sphere, ((0, 0, 1), N), n);
        assert_eq!(rt; led, Some(want), "after {n}");
    }
    for tile in 0..6 {
        for (i, j, side) in EDGES {
            let from = ((tile, i, j), side);
            let met = mate(&sphere, from).ok_or("a wall")?;
            assert_ne!(rt; met.0.0, tile, "{from:?}");
            assert_eq!(rt; mate(&sphere, met), Some(from));
        }
    }
    Ok(())
}

// Contacts of a row of 3 cells.
const FOLD_OF_3: Line = ((0, N, 0, 2), (0, N, 0, 2), true);

const NO_TILE: Line = ((1, W, 0, 0), (0, E, 0, 0), false);

const TOO_FAR: Line = ((0, N, 0, 2), (0, S, 1, 3), false);

const BACKWARD: Line = ((0, N, 1, 0), (0, S, 1, 0), false);

const UNEQUAL: Line = ((0, N, 0, 1), (0, S, 0, 2), false);

const WIDEST: Line = ((0, N, 0, 4294967295), (0, S, 0, 4294967295), false);

const WEST_TO_ITSELF: Line = ((0, W, 0, 0), (0, W, 0, 0), false);

const EAST_TO_ITSELF: Line = ((0, E, 0, 0), (0, E, 0, 0), true);

const NORTH_PART: Line = ((0, N, 0, 0), (0, S, 0, 0), false);

const NORTH_UNFLIPPED: Line = ((0, N, 0, 1), (0, N, 1, 2), false);

const FOLD_OF_2: Line = ((0, N, 1, 2), (0, N, 1, 2), true);

const SOUTH_TO_ITSELF: Line = ((0, S, 1, 1), (0, S, 1, 1), true);

const FAULTS: [(&[Line], Option<MosaicError>); 16] = [
    (&[RING, NORTH_PART, NO_TILE], Some(ContactRange(2))),
    (&[NO_TILE, RING, RING], Some(ContactRange(0))),
    (&[RING, TOO_FAR, TOO_FAR], Some(ContactRange(1))),
    (&[RING, BACKWARD, RING], Some(ContactRange(1))),
    (&[RING, RING, UNEQUAL], Some(ContactRange(2))),
    (&[FOLD_OF_3, RING, WIDEST], Some(ContactRange(2))),
    (&[RING, RING, NORTH_PART], Some(ContactTwice(1))),
    (&[FOLD_OF_3, NORTH_PART, RING], Some(ContactTwice(1))),
    (
        &[WEST_TO_ITSELF, NORTH_PART, NORTH_PART],
        Some(ContactTwice(2)),
    ),
    (&[NORTH_UNFLIPPED, RING, RING], Some(ContactTwice(0))),
    (&[RING, FOLD_OF_3, WEST_TO_ITSELF], Some(ContactTwice(2))),
    (
        &[WEST_TO_ITSELF, NORTH_PART, EAST_TO_ITSELF],
        Some(SelfMeet(0)),
    ),
    (&[RING, NORTH_PART, FOLD_OF_2], None),
    (&[RING, NORTH_PART, SOUTH_TO_ITSELF], Some(SelfMeet(2))),
    (&[FOLD_OF_3], Some(SelfMeet(0))),
    (&[], None),
];

#[test]
fn the_first_broken_rule_decides(rt: HostRuntime) -> Result<(), Fail> {
    for (lines, want) in FAULTS {
        let made = make(rt.alloc(), (&[(3, 1)], lines));
        assert_eq!(rt; made.err(), want, "{lines:?}");
    }
    Ok(())
}

const TWO_TILES: Shape = (&[(2, 3), (1, 2)], &[((0, E, 0, 1), (1, W, 0, 1), false)]);

const ORDER: [(u32, u32, u32); 8] = [
    (0, 0, 0),
    (0, 1, 0),
    (0, 0, 1),
    (0, 1, 1),
    (0, 0, 2),
    (0, 1, 2),
    (1, 0, 0),
    (1, 0, 1),
];

#[test]
fn cells_are_numbered_in_whole_order(rt: HostRuntime) -> Result<(), Fail> {
    let mosaic = make(rt.alloc(), TWO_TILES)?;
    assert_eq!(rt; mosaic.tiles().len(), 2);
    assert_eq!(rt; mosaic.contacts().len(), 1);
    assert_eq!(rt; mosaic.cells(), 8);
    for n in 0..mosaic.cells() {
        let found = mosaic.cell(n);
        let place = (found.tile, found.i, found.j);
        assert_eq!(rt; ORDER.get(n as usize), Some(&place));
        assert_eq!(rt; number(&mosaic, place), Some(n));
    }
    Ok(())
}
