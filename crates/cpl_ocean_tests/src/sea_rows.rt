// Rows over whole lists. Expected numbers are worked out by hand, those above 64 bits by exact arithmetic.
use crate::sea::{Found, Sea, after};
use crate::shapes::Shape;
use cpl_mosaic::Side::{E, N, W};
use cpl_mosaic::{Contact, Span, Tile};
use std::process::Abort;
use std::test::Fail;

/// Two wet cells of area 1 side by side.
const TWO: Shape = Shape {
    tiles: &[Tile { nx: 2, ny: 1 }],
    contacts: &[],
    area: &[1, 1],
    layers: 1,
};

/// The same of areas 3 and 1.
const AREAS: Shape = Shape {
    tiles: &[Tile { nx: 2, ny: 1 }],
    contacts: &[],
    area: &[3, 1],
    layers: 1,
};

/// The same of the greatest area, 2^40.
const WIDE: Shape = Shape {
    tiles: &[Tile { nx: 2, ny: 1 }],
    contacts: &[],
    area: &[1_099_511_627_776, 1_099_511_627_776],
    layers: 1,
};

/// The same of area 1, with two layers.
const TWO_DEEP: Shape = Shape {
    tiles: &[Tile { nx: 2, ny: 1 }],
    contacts: &[],
    area: &[1, 1],
    layers: 2,
};

/// Three wet cells of area 1 in a row.
const THREE: Shape = Shape {
    tiles: &[Tile { nx: 3, ny: 1 }],
    contacts: &[],
    area: &[1, 1, 1],
    layers: 1,
};

/// Four in a row, of which the second is dry.
const DRY: Shape = Shape {
    tiles: &[Tile { nx: 4, ny: 1 }],
    contacts: &[],
    area: &[1, 0, 1, 1],
    layers: 1,
};

/// The two ends of a row of cells.
const ENDS: Contact = Contact {
    first: Span {
        tile: 0,
        side: W,
        lo: 0,
        hi: 0,
    },
    second: Span {
        tile: 0,
        side: E,
        lo: 0,
        hi: 0,
    },
    flip: false,
};

/// Two cells that go round: they have two faces, and each is behind the other.
const ROUND: Shape = Shape {
    tiles: &[Tile { nx: 2, ny: 1 }],
    contacts: &[ENDS],
    area: &[1, 1],
    layers: 1,
};

/// One cell that meets itself, with three layers.
const ALONE: Shape = Shape {
    tiles: &[Tile { nx: 1, ny: 1 }],
    contacts: &[ENDS],
    area: &[1],
    layers: 3,
};

/// The north edge of two columns, folded.
const NORTH: Span = Span {
    tile: 0,
    side: N,
    lo: 0,
    hi: 1,
};

/// Two rows of two cells whose north is folded: the cells of the second row meet there too. The faces are the first cell's east and
/// north, the second's north, and the third's east and north.
const FOLD: Shape = Shape {
    tiles: &[Tile { nx: 2, ny: 2 }],
    contacts: &[Contact {
        first: NORTH,
        second: NORTH,
        flip: true,
    }],
    area: &[1, 1, 1, 1],
    layers: 1,
};

/// A cell whose east meets the north of a tile of two rows, by a rotated contact.
const ROTATED: Shape = Shape {
    tiles: &[Tile { nx: 1, ny: 1 }, Tile { nx: 1, ny: 2 }],
    contacts: &[Contact {
        first: Span {
            tile: 0,
            side: E,
            lo: 0,
            hi: 0,
        },
        second: Span {
            tile: 1,
            side: N,
            lo: 0,
            hi: 0,
        },
        flip: false,
    }],
    area: &[1, 1, 1],
    layers: 1,
};

/// An ocean whose faces all have a number, how many steps it takes, and then its water, heat, salt and faces.
#[derive(Clone, Copy)]
struct Steps {
    shape: Shape,
    before: Sea,
    number: i64,
    steps: u32,
    after: Sea,
    faces: &'static [i64],
}

const STEPS: &[Steps] = &[
    // 80 of water more over an area of 1 drive 80. An eighth of the water goes, 10, with 1000 * 10 / 80 of heat and 2 of salt.
    Steps {
        shape: TWO,
        before: [&[80, 0], &[1000, 0], &[16, 0]],
        number: 0,
        steps: 1,
        after: [&[70, 10], &[875, 125], &[14, 2]],
        faces: &[80],
    },
    // Then 80 - 80 / 16 + 60 is 135. An eighth of 70 is 8, with 875 * 8 / 70 of heat, 100, and 14 * 8 / 70 of salt, 1.
    Steps {
        shape: TWO,
        before: [&[80, 0], &[1000, 0], &[16, 0]],
        number: 0,
        steps: 2,
        after: [&[62, 18], &[775, 225], &[13, 3]],
        faces: &[135],
    },
    // From the other side with the opposite sign.
    Steps {
        shape: TWO,
        before: [&[0, 80], &[0, 1000], &[0, 16]],
        number: 0,
        steps: 1,
        after: [&[10, 70], &[125, 875], &[2, 14]],
        faces: &[-80],
    },
    // 7 over 3 is 597 256ths, and 100 over 1 is 25600: 25003 drive 97.67, toward 0. An eighth is 12 of the water.
    Steps {
        shape: AREAS,
        before: [&[7, 100], &[0, 1000], &[0, 16]],
        number: 0,
        steps: 1,
        after: [&[19, 88], &[120, 880], &[1, 15]],
        faces: &[-97],
    },
    // 1621 and 22528 drive 81 more, on -97 + 6.
    Steps {
        shape: AREAS,
        before: [&[7, 100], &[0, 1000], &[0, 16]],
        number: 0,
        steps: 2,
        after: [&[30, 77], &[230, 770], &[2, 14]],
        faces: &[-172],
    },
    // 10 of water would take 125 of heat, which is an eighth. The heat falls by 800 to the second cell and by 1000 from it: a
    // sixteenth of the lesser is -50. Where it rises to the second cell there is no correction. Where it rises on, by 800 too, it is 50,
    // which the eighth cuts off. Salt is level behind the second cell.
    Steps {
        shape: THREE,
        before: [&[80, 80, 0], &[1800, 1000, 0], &[16, 16, 0]],
        number: 0,
        steps: 1,
        after: [&[80, 70, 10], &[1800, 925, 75], &[16, 14, 2]],
        faces: &[0, 80],
    },
    Steps {
        shape: THREE,
        before: [&[80, 80, 0], &[200, 1000, 0], &[16, 16, 0]],
        number: 0,
        steps: 1,
        after: [&[80, 70, 10], &[200, 875, 125], &[16, 14, 2]],
        faces: &[0, 80],
    },
    Steps {
        shape: THREE,
        before: [&[80, 80, 0], &[200, 1000, 1800], &[16, 16, 0]],
        number: 0,
        steps: 1,
        after: [&[80, 70, 10], &[200, 875, 1925], &[16, 14, 2]],
        faces: &[0, 80],
    },
    // Nothing goes to a dry cell, and where it lies behind nothing is corrected.
    Steps {
        shape: DRY,
        before: [&[80, 0, 80, 0], &[1800, 0, 1000, 0], &[16, 0, 16, 0]],
        number: 0,
        steps: 1,
        after: [&[80, 0, 70, 10], &[1800, 0, 875, 125], &[16, 0, 14, 2]],
        faces: &[0, 0, 80],
    },
    // 8 units take 200 * 8 / 80 of heat, 20, and 1 of salt. Were the dry cell behind one with no heat, a sixteenth of 200 would be added.
    Steps {
        shape: DRY,
        before: [&[0, 0, 80, 72], &[0, 0, 200, 1000], &[0, 0, 16, 16]],
        number: 0,
        steps: 1,
        after: [&[0, 0, 72, 80], &[0, 0, 180, 1020], &[0, 0, 15, 17]],
        faces: &[0, 0, 8],
    },
    // Ten units through each of two faces. Behind the first cell lies the one that it gives to.
    Steps {
        shape: ROUND,
        before: [&[80, 0], &[1000, 0], &[16, 0]],
        number: 0,
        steps: 1,
        after: [&[60, 20], &[750, 250], &[12, 4]],
        faces: &[80, 80],
    },
    // A cell drives nothing into itself. A layer of 160 gives 10 down, one of 320 gives 20 up and down, one of 480 gives 30 up.
    Steps {
        shape: ALONE,
        before: [&[160, 320, 480], &[1600, 160, 0], &[16, 32, 48]],
        number: 0,
        steps: 1,
        after: [&[170, 320, 470], &[1510, 240, 10], &[17, 32, 47]],
        faces: &[0, 0, 0],
    },
    // Where its faces have a number, an eighth goes out and comes in again: 20, 40 and 60 units of water. A face keeps 80 - 80 / 16.
    Steps {
        shape: ALONE,
        before: [&[160, 320, 480], &[1600, 160, 0], &[16, 32, 48]],
        number: 80,
        steps: 1,
        after: [&[170, 320, 470], &[1510, 240, 10], &[17, 32, 47]],
        faces: &[75, 75, 75],
    },
    // First ten units go sideways, and then a sixteenth of 70 down: 4 of it.
    Steps {
        shape: TWO_DEEP,
        before: [&[80, 0, 0, 0], &[1000, 0, 0, 0], &[16, 0, 0, 0]],
        number: 0,
        steps: 1,
        after: [&[66, 10, 4, 0], &[821, 118, 54, 7], &[14, 2, 0, 0]],
        faces: &[80, 80],
    },
    // The fourth cell takes from the second, and twice from the third. Behind that one lies at its west a wall, at its south 1800, so
    // that 125, 125 and 75 of heat go.
    Steps {
        shape: FOLD,
        before: [&[80, 80, 80, 0], &[1800, 1000, 1000, 0], &[16, 16, 16, 0]],
        number: 0,
        steps: 1,
        after: [&[80, 70, 60, 30], &[1800, 875, 800, 325], &[16, 14, 12, 6]],
        faces: &[0, 0, 80, 80, 80],
    },
    // The same in a mirror: what the fourth cell gives goes against the faces.
    Steps {
        shape: FOLD,
        before: [&[80, 80, 0, 80], &[1000, 1800, 0, 1000], &[16, 16, 0, 16]],
        number: 0,
        steps: 1,
        after: [&[70, 80, 30, 60], &[875, 1800, 325, 800], &[14, 16, 6, 12]],
        faces: &[0, 80, 0, -80, -80],
    },
    // The third cell gives through its north, and behind it, at its south, lies the second: 125 - 50 of heat.
    Steps {
        shape: ROTATED,
        before: [&[0, 80, 80], &[0, 1800, 1000], &[0, 16, 16]],
        number: 0,
        steps: 1,
        after: [&[10, 80, 70], &[75, 1800, 925], &[2, 16, 14]],
        faces: &[-80, 0],
    },
    // It gives through its south, and behind it, at its north, lies the first: 125 - 50 again.
    Steps {
        shape: ROTATED,
        before: [&[80, 0, 80], &[1800, 0, 1000], &[16, 0, 16]],
        number: 0,
        steps: 1,
        after: [&[80, 10, 70], &[1800, 75, 925], &[16, 2, 14]],
        faces: &[0, -80],
    },
    // 256 * (2^56 + 3 * 2^33) is 2^64 + 3 * 2^41, so that the height is 2^24 + 6. Heat and salt times 2^16 are about 2^77.
    Steps {
        shape: WIDE,
        before: [
            &[72_057_619_807_731_712, 0],
            &[3_000_000_000_000_000_007, 0],
            &[4_000_000_000_000_000_001, 0],
        ],
        number: 0,
        steps: 1,
        after: [
            &[72_057_619_807_666_176, 65_536],
            &[2_999_999_999_997_271_524, 2_728_483],
            &[3_999_999_999_996_362_024, 3_637_977],
        ],
        faces: &[65_536],
    },
    // A height of 2^69 counts as 2^40, which drives 2^32. Of heat goes 2^32 + 8 / 2^29.
    Steps {
        shape: TWO,
        before: [
            &[2_305_843_009_213_693_952, 0],
            &[2_305_843_009_213_693_960, 0],
            &[2_305_843_009_213_693_952, 0],
        ],
        number: 0,
        steps: 1,
        after: [
            &[2_305_843_004_918_726_656, 4_294_967_296],
            &[2_305_843_004_918_726_664, 4_294_967_296],
            &[2_305_843_004_918_726_656, 4_294_967_296],
        ],
        faces: &[4_294_967_296],
    },
];

// Looks whether a run left this ocean.
fn holds(rt: &impl Abort, found: &Found, [water, heat, salt]: Sea) {
    assert_eq!(rt; found.water.as_slice(), water);
    assert_eq!(rt; found.heat.as_slice(), heat);
    assert_eq!(rt; found.salt.as_slice(), salt);
}

#[test]
fn water_heat_and_salt_move_through_faces(rt: HostRuntime) -> Result<(), Fail> {
    for row in STEPS {
        let before = (row.before, row.number);
        let found = after(rt.alloc(), &row.shape, before, row.steps, false)?;
        holds(&rt, &found, row.after);
        assert_eq!(rt; found.faces.as_slice(), row.faces);
    }
    Ok(())
}

/// An ocean of two cells, what leaves its top layer, and what is left.
const CUTS: &[(Shape, Sea, [i64; 10], Sea)] = &[
    // 1426 for each unit of water is enough. Then 3340 are missing, which freeze 10 units to ice of 1092 each.
    (
        TWO,
        [&[400, 400], &[570_400, 567_060], &[40, 41]],
        [0, 0, 100, 142_600, 10, 10, 10_920, 97, 139_035, 10],
        [&[300, 293], &[427_800, 417_105], &[30, 31]],
    ),
    // The heat fills no ice, and ice of 91 units. What lies below the top layer stays.
    (
        TWO_DEEP,
        [&[7, 400, 5, 6], &[0, 100_000, 50, 60], &[3, 0, 1, 2]],
        [0, 0, 1, 0, 0, 91, 99_372, 77, 157, 0],
        [&[6, 232, 5, 6], &[0, 471, 50, 60], &[3, 0, 1, 2]],
    ),
    // 1426 times the water is 2^64 + 914, far more than the heat.
    (
        TWO,
        [
            &[12_936_005_661_787_905, 0],
            &[1_091_999_999_999_999_999, 0],
            &[7, 0],
        ],
        [
            999_999_999_999_999,
            1_091_999_999_999_998_908,
            2_984_001_415_446_976,
            272,
            1,
            0,
            0,
            0,
            0,
            0,
        ],
        [&[8_952_004_246_340_930, 0], &[819, 0], &[6, 0]],
    ),
];

#[test]
fn frazil_and_skin_are_cut_off(rt: HostRuntime) -> Result<(), Fail> {
    for (shape, before, flight, rest) in CUTS {
        let found = after(rt.alloc(), shape, (*before, 0), 0, true)?;
        holds(&rt, &found, *rest);
        assert_eq!(rt; found.to_ice.as_slice(), flight.as_slice());
    }
    Ok(())
}
