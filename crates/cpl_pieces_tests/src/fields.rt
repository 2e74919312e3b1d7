// Worked cases of fields with halos.
use cpl_field::Field;
use cpl_layout::Piece;
use cpl_mosaic::Side;
use cpl_mosaic::Side::{E, W};
use std::alloc::Global;
use std::test::Fail;

const PIECE: Piece = Piece {
    tile: 0,
    i0: 0,
    nx: 3,
    j0: 0,
    ny: 2,
};

// What lies so many steps out through a side of a cell, where cell (0, 1) has the number 9 and the second hole beyond it 7. None
// at all where something fails.
fn seen(alloc: Global, (i, j): (u32, u32), side: Side, depth: u32) -> Option<i64> {
    let mut field = Field::new(alloc, &PIECE, 2).ok()?;
    field.set(0, 1, 9);
    field.set_halo(W, 1, 2, 7);
    let copy = field.copy(alloc).ok()?;
    if i < 3 && j < 2 && (depth == 1 || depth == 2) {
        Some(copy.at(i, j, side, depth))
    } else {
        None
    }
}

const SEEN: [((u32, u32), Side, u32, i64); 6] = [
    ((1, 1), W, 1, 9),
    ((2, 1), W, 2, 9),
    ((0, 1), W, 2, 7),
    ((0, 1), W, 1, 0),
    ((0, 1), E, 1, 0),
    ((2, 1), E, 2, 0),
];

#[test]
fn what_lies_beyond_a_side_is_a_cell_or_a_hole(rt: HostRuntime) -> Result<(), Fail> {
    for (cell, side, depth, want) in SEEN {
        let found = seen(rt.alloc(), cell, side, depth);
        assert_eq!(rt; found, Some(want), "from {cell:?} {side:?}");
    }
    Ok(())
}
