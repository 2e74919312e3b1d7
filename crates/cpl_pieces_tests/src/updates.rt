// A worked case of a group update.
ghost use Rattle.std.specs.Prelude.{◌≡◌, IfOk};
ghost use Rattle.cpl_pieces_tests.specs.Ring.{ring};

use cpl_field::Field;
use cpl_fixed::List;
use cpl_group::Group;
use cpl_layout::Piece;
use cpl_mosaic::Side::{E, W};
use cpl_strip::{Hole, Strip};
use std::alloc::{AllocError, Global};
use std::test::Fail;

const ROW: Piece = Piece {
    tile: 0,
    i0: 0,
    nx: 2,
    j0: 0,
    ny: 1,
};

const WEST: Hole = Hole {
    side: W,
    at: 0,
    depth: 1,
};

const EAST: Hole = Hole {
    side: E,
    at: 0,
    depth: 1,
};

// The strip of a row of two cells whose ends meet.
fn ring(alloc: Global) -> Result<Strip, AllocError>
    ensures { IfOk result (λ strip. strip ≡ ring) }
{
    let places = vec![in alloc; (1, 0), (0, 0)]?;
    let holes = vec![in alloc; WEST, EAST]?;
    Ok(Strip {
        from: 0,
        to: 0,
        places: List::from_vec(places),
        holes: List::from_vec(holes),
    })
}

// The holes at the W and at the E end of two rows of two cells, once one group update has filled them.
fn updated(alloc: Global, a: [i64; 2], b: [i64; 2]) -> Result<[i64; 4], AllocError> {
    let group = Group::new(vec![in alloc; ring(alloc)?]?, 2)?;
    let mut first = Field::new(alloc, &ROW, 1)?;
    let mut second = Field::new(alloc, &ROW, 1)?;
    first.set_row(0, &a);
    second.set_row(0, &b);
    let mut buffer = vec![in alloc; 0; group.len(0)]?;
    group.start(0, 0, &first, &mut buffer);
    group.start(0, 1, &second, &mut buffer);
    group.complete(0, 0, &mut first, &buffer);
    group.complete(0, 1, &mut second, &buffer);
    Ok([
        first.halo(W, 0, 1),
        first.halo(E, 0, 1),
        second.halo(W, 0, 1),
        second.halo(E, 0, 1),
    ])
}

#[test]
fn each_field_has_its_part_of_a_buffer(rt: HostRuntime) -> Result<(), Fail> {
    let holes = updated(rt.alloc(), [10, 20], [3, 4])?;
    assert_eq!(rt; holes, [20, 10, 4, 3]);
    Ok(())
}
