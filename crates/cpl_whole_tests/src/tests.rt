use crate::runs::{run, run_in_pieces};
use cpl_mosaic::Side::{E, N, W};
use cpl_mosaic::{Contact, Side, Span};
use std::test::Fail;

fn contact(first: (Side, u32, u32), second: (Side, u32, u32), flip: bool) -> Contact {
    Contact {
        first: span(first),
        second: span(second),
        flip,
    }
}

fn span((side, lo, hi): (Side, u32, u32)) -> Span {
    Span {
        tile: 0,
        side,
        lo,
        hi,
    }
}

#[test]
fn heat_flows_toward_equal_amounts_for_each_unit_of_area(rt: HostRuntime) -> Result<(), Fail> {
    for (areas, before, after) in [
        ([1, 1], [100, 0], [94, 6]),
        ([1, 1], [0, 100], [6, 94]),
        // 300 / 32 is 9 in each direction, not 10 in one of them.
        ([1, 3], [100, 0], [91, 9]),
        ([3, 1], [0, 100], [9, 91]),
        ([1, 3], [25, 75], [25, 75]),
        (
            [1, 1],
            [4611686018427387903, 0],
            [4323455642275676160, 288230376151711743],
        ),
        // Products that pass 64 bits.
        (
            [1, 1099511627776],
            [4611686018427387903, 0],
            [4035225266124488704, 576460752302899199],
        ),
    ] {
        let last = run(rt.alloc(), (2, 1), &[], &areas, &before, &[0, 0], 1)?;
        assert_eq!(rt; last.heat.as_slice(), after.as_slice());
        assert_eq!(rt; last.vapour.as_slice(), [0, 0].as_slice());
    }
    Ok(())
}

#[test]
fn vapour_flows_as_heat_does(rt: HostRuntime) -> Result<(), Fail> {
    let last = run(rt.alloc(), (2, 1), &[], &[1, 1], &[0, 0], &[100, 0], 1)?;
    assert_eq!(rt; last.heat.as_slice(), [0, 0].as_slice());
    assert_eq!(rt; last.vapour.as_slice(), [94, 6].as_slice());
    Ok(())
}

#[test]
fn steps_follow_each_other(rt: HostRuntime) -> Result<(), Fail> {
    // 100 0: 94 6: 94 - 5, 6 + 5.
    let none = run(rt.alloc(), (1, 2), &[], &[1, 1], &[100, 0], &[7, 9], 0)?;
    assert_eq!(rt; none.heat.as_slice(), [100, 0].as_slice());
    assert_eq!(rt; none.vapour.as_slice(), [7, 9].as_slice());
    let two = run(rt.alloc(), (1, 2), &[], &[1, 1], &[100, 0], &[7, 9], 2)?;
    assert_eq!(rt; two.heat.as_slice(), [89, 11].as_slice());
    assert_eq!(rt; two.vapour.as_slice(), [7, 9].as_slice());
    Ok(())
}

#[test]
fn all_sides_flow_at_once(rt: HostRuntime) -> Result<(), Fail> {
    // 3 by 3 cells of area 1, 160 in the middle: 10 flows out of each of its sides.
    let last = run(
        rt.alloc(),
        (3, 3),
        &[],
        &[1; 9],
        &[0, 0, 0, 0, 160, 0, 0, 0, 0],
        &[0; 9],
        1,
    )?;
    assert_eq!(rt;
        last.heat.as_slice(),
        [0, 10, 0, 10, 120, 10, 0, 10, 0].as_slice()
    );
    // 160, 80, 0 in a row: 5 flows out of each of the first two, so the middle stays.
    let row = run(rt.alloc(), (3, 1), &[], &[1; 3], &[160, 80, 0], &[0; 3], 1)?;
    assert_eq!(rt; row.heat.as_slice(), [155, 80, 5].as_slice());
    Ok(())
}

#[test]
fn flows_follow_contacts(rt: HostRuntime) -> Result<(), Fail> {
    let fold = contact((N, 0, 3), (N, 0, 3), true);
    let folded = run(
        rt.alloc(),
        (4, 1),
        &[fold],
        &[1; 4],
        &[100, 0, 0, 0],
        &[0; 4],
        1,
    )?;
    assert_eq!(rt; folded.heat.as_slice(), [88, 6, 0, 6].as_slice());
    let cyclic = contact((W, 0, 0), (E, 0, 0), false);
    // A cell that meets itself keeps what it has.
    let one = run(rt.alloc(), (1, 1), &[cyclic], &[1], &[100], &[0], 1)?;
    assert_eq!(rt; one.heat.as_slice(), [100].as_slice());
    // Two cells that share two faces.
    let two = run(
        rt.alloc(),
        (2, 1),
        &[cyclic],
        &[1, 1],
        &[100, 0],
        &[0, 0],
        1,
    )?;
    assert_eq!(rt; two.heat.as_slice(), [88, 12].as_slice());
    Ok(())
}

#[test]
fn a_layout_changes_nothing(rt: HostRuntime) -> Result<(), Fail> {
    // A fold of 4 cells: the first meets the last across it. 100 / 16 is 6 to each of two neighbours.
    let fold = [contact((N, 0, 3), (N, 0, 3), true)];
    for pieces in [(1, 1), (2, 1), (4, 1)] {
        let last = run_in_pieces(rt.alloc(), pieces, (4, 1), &fold, &[100, 0, 0, 0], 1)?;
        assert_eq!(rt; last.heat.as_slice(), [88, 6, 0, 6].as_slice());
        assert_eq!(rt; last.vapour.as_slice(), [88, 6, 0, 6].as_slice());
    }
    Ok(())
}
