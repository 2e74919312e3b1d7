use crate::crossing::{Crossing, of_air, of_surface, outlets_of};
use crate::grids::{Lists, divided, grid};
use cpl_xgrid::{Surface, XGridError, XRef};
use std::test::Fail;

/// One cell of each, joined by one exchange cell in each list.
const COLUMN: Lists<'static> = Lists {
    air: &[16],
    land: &[4],
    ocean: &[12],
    land_rows: &[(0, 0, 4)],
    ocean_rows: &[(0, 0, 12)],
    outlets: &[(0, 0, 1)],
};

#[test]
fn the_first_broken_rule_decides(rt: HostRuntime) -> Result<(), Fail> {
    let land = |land_rows| Lists {
        land_rows,
        ..COLUMN
    };
    for (lists, fault) in [
        (COLUMN, None),
        (
            land(&[(1, 0, 4)]),
            Some(XGridError::BadIndex(Surface::Land, 0)),
        ),
        (
            land(&[(0, 0, 0)]),
            Some(XGridError::ZeroArea(Surface::Land, 0)),
        ),
        (
            Lists {
                ocean_rows: &[(0, 3, 12)],
                ..COLUMN
            },
            Some(XGridError::BadIndex(Surface::Ocean, 0)),
        ),
        (
            Lists {
                air: &[17],
                ..COLUMN
            },
            Some(XGridError::AirSum(0, 16, 17)),
        ),
        (
            Lists {
                air: &[17],
                ..land(&[(0, 0, 0)])
            },
            Some(XGridError::ZeroArea(Surface::Land, 0)),
        ),
        (
            Lists {
                land: &[5],
                ..COLUMN
            },
            Some(XGridError::LandSum(0, 4, 5)),
        ),
        (
            Lists {
                ocean: &[13],
                ..COLUMN
            },
            Some(XGridError::OceanSum(0, 12, 13)),
        ),
        (
            Lists {
                outlets: &[(0, 0, 0)],
                ..COLUMN
            },
            Some(XGridError::Outlet(0)),
        ),
        (
            Lists {
                outlets: &[],
                ..COLUMN
            },
            Some(XGridError::NoOutlet(0)),
        ),
    ] {
        assert_eq!(rt; grid(rt.alloc(), lists).err(), fault);
    }
    Ok(())
}

#[test]
fn areas_are_divided_over_parts(rt: HostRuntime) -> Result<(), Fail> {
    for (area, parts, b) in [
        (12, [65536, 0, 0], [12, 0, 0]),
        (12, [0, 0, 65536], [0, 0, 12]),
        (5, [32768, 16384, 16384], [2, 1, 2]),
    ] {
        assert_eq!(rt; divided(area, parts), Some(b));
    }
    Ok(())
}

/// Two cells of each. Air 0 has 3 of land 0, and 4 and 3 of the ocean's cells 1 and 0; air 1 has 2 of land 1 and 4 of ocean 0.
/// Land 0 has the outlets 0 and 2, land 1 the outlet 1.
const PAIRS: Lists<'static> = Lists {
    air: &[10, 6],
    land: &[3, 2],
    ocean: &[7, 4],
    land_rows: &[(1, 1, 2), (0, 0, 3)],
    ocean_rows: &[(0, 1, 4), (1, 0, 4), (0, 0, 3)],
    outlets: &[(0, 1, 1), (1, 0, 5), (0, 0, 2)],
};

const fn on_land(row: u32) -> XRef {
    XRef {
        list: Surface::Land,
        row,
    }
}

const fn on_ocean(row: u32) -> XRef {
    XRef {
        list: Surface::Ocean,
        row,
    }
}

#[test]
fn exchange_cells_stand_in_element_order(rt: HostRuntime) -> Result<(), Fail> {
    let it = grid(rt.alloc(), PAIRS)?;
    assert_eq!(rt; *of_air(&it, 0), [on_land(1), on_ocean(0), on_ocean(2)][..]);
    assert_eq!(rt; *of_air(&it, 1), [on_land(0), on_ocean(1)][..]);
    for (list, cell, refs) in [
        (Surface::Land, 0, [on_land(1)].as_slice()),
        (Surface::Land, 1, &[on_land(0)]),
        (Surface::Ocean, 0, &[on_ocean(1), on_ocean(2)]),
        (Surface::Ocean, 1, &[on_ocean(0)]),
    ] {
        assert_eq!(rt; of_surface(&it, list, cell), refs);
    }
    assert_eq!(rt; *outlets_of(&it, 0), [0, 2][..]);
    assert_eq!(rt; *outlets_of(&it, 1), [1][..]);
    Ok(())
}

#[test]
fn values_cross(rt: HostRuntime) -> Result<(), Fail> {
    let it = Crossing::new(rt.alloc(), PAIRS, 2)?;
    // The air's cells of the exchange cells are 1, 0 on land, and 0, 1, 0 on the ocean.
    let mut values = [0; 5];
    assert!(rt; it.put(&[100, 200], &mut values));
    assert_eq!(rt; values, [200, 100, 100, 200, 100]);
    // The ocean's cells are 1, 0, 0: 7 - 11 and 5. The land's second piece has its cell 1, with the first of its rows.
    let mut sums = [0; 2];
    assert!(rt; it.get(Surface::Ocean, 0, &[5, 7, -11], &mut sums));
    assert_eq!(rt; sums, [-4, 5]);
    let mut sum = [0; 1];
    assert!(rt; it.get(Surface::Land, 1, &[9], &mut sum));
    assert_eq!(rt; sum, [9]);
    Ok(())
}

#[test]
fn amounts_are_divided(rt: HostRuntime) -> Result<(), Fail> {
    let it = Crossing::new(rt.alloc(), PAIRS, 1)?;
    // One element on land, and three in each exchange cell of the ocean list: open water and two categories.
    assert_eq!(rt; [it.elements(0), it.elements(1)], [7, 4]);
    // Of 7 over 1, 2, 3, 4: 7 / 10, 21 / 10, 42 / 10 and 70 / 10 rounded down are 0, 2, 4, 7.
    assert_eq!(rt; it.split(1, 7, [1, 2, 3, 4]), Some([0, 2, 2, 3]));
    // A third and two thirds.
    for (amount, shares) in [(14260, [4753, 9507]), (10, [3, 7])] {
        let mut to = [0; 2];
        assert!(rt; it.drain(0, amount, &mut to));
        assert_eq!(rt; to, shares);
    }
    Ok(())
}
