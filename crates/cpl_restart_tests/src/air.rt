use cpl_restart::{StartError, decode_air, encode_air};
use std::alloc::Global;
use std::test::Fail;

// Two cells with heats 100 and 0, and vapours 0 and 0.
const TWO: [u8; 56] = [
    0x43, 0x50, 0x4c, 0x41, 0x49, 0x52, 0x30, 0x31, // the mark
    0, 0, 0, 0, 0, 0, 0, 2, // two heats
    0, 0, 0, 0, 0, 0, 0, 100, //
    0, 0, 0, 0, 0, 0, 0, 0, //
    0, 0, 0, 0, 0, 0, 0, 2, // two vapours
    0, 0, 0, 0, 0, 0, 0, 0, //
    0, 0, 0, 0, 0, 0, 0, 0,
];

// Where the numbers of these bytes begin.
const FIRST_COUNT: usize = 8;

const FIRST_HEAT: usize = 16;

const SECOND_HEAT: usize = 24;

const SECOND_COUNT: usize = 32;

const FIRST_VAPOUR: usize = 40;

const SECOND_VAPOUR: usize = 48;

// Those bytes with a number in place of the one that begins at `place`.
fn with(place: usize, number: [u8; 8]) -> [u8; 56] {
    let mut bytes = TWO;
    for (i, byte) in bytes.iter_mut().enumerate() {
        if place <= i && i - place < 8 {
            *byte = number[i - place];
        }
    }
    bytes
}

const MINUS_ONE: [u8; 8] = [0xff; 8];

fn cut(bytes: &[u8], length: usize) -> &[u8] {
    if length <= bytes.len() {
        &bytes[..length]
    } else {
        bytes
    }
}

fn fault(alloc: Global, cells: u32, bytes: &[u8]) -> Option<StartError> {
    decode_air(alloc, cells, bytes).err()
}

#[test]
fn two_cells_are_read_and_written_back(rt: HostRuntime) -> Result<(), Fail> {
    let alloc = rt.alloc();
    let air = decode_air(alloc, 2, &TWO).ok().ok_or("no state")?;
    assert_eq!(rt; air.heat.as_slice(), [100, 0].as_slice());
    assert_eq!(rt; air.vapour.as_slice(), [0, 0].as_slice());
    let bytes = encode_air(alloc, &air)?;
    assert_eq!(rt; bytes.as_slice(), TWO.as_slice());
    Ok(())
}

#[test]
fn heats_come_before_vapours(rt: HostRuntime) -> Result<(), Fail> {
    let alloc = rt.alloc();
    let given = with(SECOND_VAPOUR, [0, 0, 0, 0, 0, 0, 1, 2]);
    let air = decode_air(alloc, 2, &given).ok().ok_or("no state")?;
    assert_eq!(rt; air.heat.as_slice(), [100, 0].as_slice());
    assert_eq!(rt; air.vapour.as_slice(), [0, 258].as_slice());
    let bytes = encode_air(alloc, &air)?;
    assert_eq!(rt; bytes.as_slice(), given.as_slice());
    Ok(())
}

#[test]
fn what_is_cut_is_short(rt: HostRuntime) {
    let alloc = rt.alloc();
    for length in 0..TWO.len() {
        assert_eq!(rt;
            fault(alloc, 2, &TWO[..length]),
            Some(StartError::Short),
            "{length} bytes"
        );
    }
    let mut other = TWO;
    other[0] = b'X';
    assert_eq!(rt; fault(alloc, 2, &other[..7]), Some(StartError::Short));
    assert_eq!(rt; fault(alloc, 2, &other[..8]), Some(StartError::Magic));
    assert_eq!(rt; fault(alloc, 2, &other[..55]), Some(StartError::Magic));
}

#[test]
fn each_byte_of_the_mark_counts(rt: HostRuntime) {
    let alloc = rt.alloc();
    for i in 0..8 {
        let mut other = TWO;
        other[i] = b'X';
        assert_eq!(rt;
            fault(alloc, 2, &other),
            Some(StartError::Magic),
            "byte {i}"
        );
    }
}

#[test]
fn counts_are_the_grids(rt: HostRuntime) {
    let alloc = rt.alloc();
    let first = Some(StartError::Shape(1));
    let second = Some(StartError::Shape(2));
    assert_eq!(rt; fault(alloc, 1, &TWO), first);
    assert_eq!(rt; fault(alloc, 3, &TWO), first);
    assert_eq!(rt;
        fault(alloc, 2, &with(FIRST_COUNT, [0, 0, 0, 0, 0, 0, 0, 3])),
        first
    );
    assert_eq!(rt;
        fault(alloc, 2, &with(FIRST_COUNT, [0, 0, 0, 1, 0, 0, 0, 2])),
        first
    );
    assert_eq!(rt;
        fault(alloc, 2, &with(FIRST_COUNT, [0x80, 0, 0, 0, 0, 0, 0, 2])),
        first
    );
    assert_eq!(rt; fault(alloc, 2, &with(FIRST_COUNT, MINUS_ONE)), first);
    assert_eq!(rt;
        fault(alloc, 2, &with(SECOND_COUNT, [0, 0, 0, 0, 0, 0, 0, 1])),
        second
    );
    assert_eq!(rt;
        fault(alloc, 2, &with(SECOND_COUNT, [0, 0, 0, 1, 0, 0, 0, 2])),
        second
    );
    // A count comes before what is missing behind it.
    assert_eq!(rt; fault(alloc, 3, &TWO[..16]), first);
    // The greatest count, with nothing behind it.
    let greatest = with(FIRST_COUNT, [0, 0, 0, 0, 0xff, 0xff, 0xff, 0xff]);
    assert_eq!(rt;
        fault(alloc, u32::MAX, &greatest[..16]),
        Some(StartError::Short)
    );
}

#[test]
fn nothing_stands_behind_the_end(rt: HostRuntime) -> Result<(), Fail> {
    let alloc = rt.alloc();
    let mut more = Vec::from_slice(alloc, &TWO)?;
    more.push(0)?;
    assert_eq!(rt; fault(alloc, 2, &more), Some(StartError::Trailing));
    let mut both = Vec::from_slice(alloc, &with(FIRST_HEAT, MINUS_ONE))?;
    both.push(0)?;
    assert_eq!(rt; fault(alloc, 2, &both), Some(StartError::Trailing));
    Ok(())
}

#[test]
fn the_first_negative_number_is_named(rt: HostRuntime) {
    let alloc = rt.alloc();
    let rows = [
        (FIRST_HEAT, StartError::Negative(1, 0)),
        (SECOND_HEAT, StartError::Negative(1, 1)),
        (FIRST_VAPOUR, StartError::Negative(2, 0)),
        (SECOND_VAPOUR, StartError::Negative(2, 1)),
    ];
    for (place, wanted) in rows {
        assert_eq!(rt;
            fault(alloc, 2, &with(place, MINUS_ONE)),
            Some(wanted),
            "at {place}"
        );
    }
    let least = with(SECOND_HEAT, [0x80, 0, 0, 0, 0, 0, 0, 0]);
    assert_eq!(rt; fault(alloc, 2, &least), Some(StartError::Negative(1, 1)));
    // Of two, the first.
    let mut two = with(FIRST_HEAT, MINUS_ONE);
    two[40] = 0xff;
    assert_eq!(rt; fault(alloc, 2, &two), Some(StartError::Negative(1, 0)));
}

#[test]
fn signs_come_last(rt: HostRuntime) {
    let alloc = rt.alloc();
    let heat = with(FIRST_HEAT, MINUS_ONE);
    assert_eq!(rt; fault(alloc, 2, cut(&heat, 55)), Some(StartError::Short));
    let mut counted = heat;
    counted[39] = 1;
    assert_eq!(rt; fault(alloc, 2, &counted), Some(StartError::Shape(2)));
}

#[test]
fn a_grid_may_have_no_cells(rt: HostRuntime) -> Result<(), Fail> {
    let alloc = rt.alloc();
    let none: [u8; 24] = [
        0x43, 0x50, 0x4c, 0x41, 0x49, 0x52, 0x30, 0x31, //
        0, 0, 0, 0, 0, 0, 0, 0, //
        0, 0, 0, 0, 0, 0, 0, 0,
    ];
    let air = decode_air(alloc, 0, &none).ok().ok_or("no state")?;
    assert_eq!(rt; air.heat.len(), 0);
    assert_eq!(rt; air.vapour.len(), 0);
    let bytes = encode_air(alloc, &air)?;
    assert_eq!(rt; bytes.as_slice(), none.as_slice());
    Ok(())
}

#[test]
fn the_greatest_amount_is_read(rt: HostRuntime) -> Result<(), Fail> {
    let alloc = rt.alloc();
    let given = with(
        FIRST_VAPOUR,
        [0x7f, 0xff, 0xff, 0xff, 0xff, 0xff, 0xff, 0xff],
    );
    let air = decode_air(alloc, 2, &given).ok().ok_or("no state")?;
    assert_eq!(rt; air.vapour.as_slice(), [9223372036854775807, 0].as_slice());
    let bytes = encode_air(alloc, &air)?;
    assert_eq!(rt; bytes.as_slice(), given.as_slice());
    Ok(())
}

#[test]
fn faults_have_texts(rt: HostRuntime) -> Result<(), Fail> {
    let alloc = rt.alloc();
    let rows = [
        (StartError::Short, "Short"),
        (StartError::Magic, "Magic"),
        (StartError::Shape(2), "Shape 2"),
        (StartError::Trailing, "Trailing"),
        (StartError::Negative(1, 70), "Negative 1 70"),
    ];
    for (fault, wanted) in rows {
        let text = format!(in alloc; "{fault}")?;
        assert_eq!(rt; text.as_str(), wanted);
    }
    Ok(())
}
