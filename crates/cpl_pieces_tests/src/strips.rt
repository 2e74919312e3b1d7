// Worked cases of strips.
use crate::layouts::{Cut, cut};
use crate::shapes::{FOLDED, ONE_CELL, SPHERE, make};
use cpl_mosaic::Side;
use cpl_mosaic::Side::{E, N, S, W};
use cpl_strip::{Hole, Strip, strips};
use std::alloc::Global;
use std::test::Fail;

// The strips of a halo of width 1 or 2. None at all where something fails.
fn strips_of(alloc: Global, (shape, px, py): Cut, width: u32) -> Option<Vec<Strip>> {
    if width == 0 || width > 2 {
        return None;
    }
    let mosaic = make(alloc, shape).ok()?;
    let layout = cut(alloc, &mosaic, px, py).ok()?;
    strips(alloc, &layout, &mosaic, width).ok()
}

// A piece, and the place of a cell in it.
type Place = (u32, (u32, u32));

// From where a hole of a piece is filled.
fn filled_from(strips: &[Strip], to: u32, hole: Hole) -> Option<Place> {
    for strip in strips {
        let links = strip.places.as_slice().iter().zip(strip.holes.as_slice());
        for (place, other) in links {
            if strip.to == to && *other == hole {
                return Some((strip.from, *place));
            }
        }
    }
    None
}

const FOUR: Cut = (FOLDED, 4, 1);

const ONE: Cut = (ONE_CELL, 1, 1);

const SIX: Cut = (SPHERE, 1, 1);

// A halo's width, a hole by its piece, side, place along the side and depth, and from where it is filled.
const HOLES: [(Cut, u32, u32, (Side, u32, u32), Option<Place>); 14] = [
    (FOUR, 1, 0, (N, 0, 1), Some((3, (0, 0)))),
    (FOUR, 1, 3, (N, 0, 1), Some((0, (0, 0)))),
    (FOUR, 1, 1, (N, 0, 1), Some((2, (0, 0)))),
    (FOUR, 1, 0, (E, 0, 1), Some((1, (0, 0)))),
    (FOUR, 1, 0, (W, 0, 1), None),
    (FOUR, 1, 2, (S, 0, 1), None),
    (ONE, 1, 0, (W, 0, 1), Some((0, (0, 0)))),
    (ONE, 1, 0, (E, 0, 1), Some((0, (0, 0)))),
    (ONE, 1, 0, (N, 0, 1), None),
    (ONE, 2, 0, (W, 0, 2), Some((0, (0, 0)))),
    (ONE, 2, 0, (E, 0, 2), Some((0, (0, 0)))),
    (ONE, 2, 0, (N, 0, 2), None),
    (SIX, 2, 0, (N, 0, 1), Some((2, (0, 1)))),
    (SIX, 2, 0, (N, 0, 2), Some((2, (1, 1)))),
];

#[test]
fn a_hole_is_filled_from_the_cell_that_its_walk_leads_to(rt: HostRuntime) -> Result<(), Fail> {
    for (shape, width, to, (side, at, depth), want) in HOLES {
        let strips = strips_of(rt.alloc(), shape, width).ok_or("no strips")?;
        let hole = Hole { side, at, depth };
        let from = filled_from(&strips, to, hole);
        assert_eq!(rt; from, want, "{hole:?} of piece {to}");
    }
    Ok(())
}

// The strips in their order, each by its two pieces and its number of holes.
const ENDS: [(Cut, u32, &[(u32, u32, usize)]); 3] = [
    (ONE, 1, &[(0, 0, 2)]),
    (ONE, 2, &[(0, 0, 4)]),
    (
        FOUR,
        1,
        &[
            (0, 1, 1),
            (0, 3, 1),
            (1, 0, 1),
            (1, 2, 2),
            (2, 1, 2),
            (2, 3, 1),
            (3, 0, 1),
            (3, 2, 1),
        ],
    ),
];

#[test]
fn two_pieces_have_one_strip_each_way(rt: HostRuntime) -> Result<(), Fail> {
    for (shape, width, want) in ENDS {
        let strips = strips_of(rt.alloc(), shape, width).ok_or("no strips")?;
        assert_eq!(rt; strips.len(), want.len());
        for (strip, ends) in strips.iter().zip(want) {
            assert_eq!(rt; (strip.from, strip.to, strip.holes.len()), *ends);
        }
    }
    Ok(())
}
