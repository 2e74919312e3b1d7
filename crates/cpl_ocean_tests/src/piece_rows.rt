// Rows of three cells in one, two or three pieces. Expected numbers are worked out by hand.
use crate::piece::{Row, step_piece};
use std::test::Fail;

const NOTHING: Row = Row {
    amounts: [[0; 3]; 3],
    faces: [0; 2],
};

/// First cells and counts of the pieces of a row.
const CUTS: [&[(u32, u32)]; 3] = [&[(0, 3)], &[(0, 2), (2, 1)], &[(0, 1), (1, 1), (2, 1)]];

/// Rows before a step and after it.
const STEPS: &[(Row, Row)] = &[
    // 80 units of height drive 80, and an eighth of the water goes, with a correction of -50 of its heat.
    (
        Row {
            amounts: [[80, 80, 0], [1800, 1000, 0], [16, 16, 0]],
            faces: [0, 0],
        },
        Row {
            amounts: [[80, 70, 10], [1800, 925, 75], [16, 14, 2]],
            faces: [0, 80],
        },
    ),
    // Without one, and with 50, which the eighth cuts off.
    (
        Row {
            amounts: [[80, 80, 0], [200, 1000, 0], [16, 16, 0]],
            faces: [0, 0],
        },
        Row {
            amounts: [[80, 70, 10], [200, 875, 125], [16, 14, 2]],
            faces: [0, 80],
        },
    ),
    (
        Row {
            amounts: [[80, 80, 0], [200, 1000, 1800], [16, 16, 0]],
            faces: [0, 0],
        },
        Row {
            amounts: [[80, 70, 10], [200, 875, 1925], [16, 14, 2]],
            faces: [0, 80],
        },
    ),
    // The first of these taken on: 10 and 60 units of height drive as much, on 0 and on 80 - 5. From the first cell goes an eighth. Of
    // the second's heat 105 goes with 8 of 70 of its water, less 53: a sixteenth of 850.
    (
        Row {
            amounts: [[80, 70, 10], [1800, 925, 75], [16, 14, 2]],
            faces: [0, 80],
        },
        Row {
            amounts: [[70, 72, 18], [1575, 1098, 127], [14, 15, 3]],
            faces: [10, 135],
        },
    ),
    // The same from the other end, with opposite signs.
    (
        Row {
            amounts: [[10, 70, 80], [75, 925, 1800], [2, 14, 16]],
            faces: [-80, 0],
        },
        Row {
            amounts: [[18, 72, 70], [127, 1098, 1575], [3, 15, 14]],
            faces: [-135, -10],
        },
    ),
    // 8 units go from the last cell and take 200 * 8 / 80 of heat, 20, and 1 of salt. Behind it is a wall: nothing is corrected.
    (
        Row {
            amounts: [[72, 72, 80], [1000, 1000, 200], [16, 16, 16]],
            faces: [0, 0],
        },
        Row {
            amounts: [[72, 80, 72], [1000, 1020, 180], [16, 17, 15]],
            faces: [0, -8],
        },
    ),
];

#[test]
fn rows_take_a_step_in_pieces(rt: HostRuntime) -> Result<(), Fail> {
    for (before, after) in STEPS {
        for cut in CUTS {
            let mut found = NOTHING;
            for piece in cut {
                step_piece(rt.alloc(), *piece, before, &mut found)?;
            }
            assert_eq!(rt; found.amounts, after.amounts);
            assert_eq!(rt; found.faces, after.faces);
        }
    }
    Ok(())
}
