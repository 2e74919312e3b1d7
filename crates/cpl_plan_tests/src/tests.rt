// Expected totals are worked out by hand: beside the ocean, the start holds 269,620 of heat, 150 of water and 15 of salt.
use crate::fast::first_fast_step;
use crate::parts::{Start, fault, holdings};
use crate::step::first_step;
use cpl_fixed::{Component, LayoutError, Quantity};
use cpl_plan::{Holdings, PlanError, Stocks};
use cpl_whole::{FastTally, StepTally};
use std::test::Fail;

/// An hour of two fast steps in March; in July the sun is the strongest, with twice its numbers.
const HOUR: &str =
    "&coupler_nml current_date = 2001,3,1,0,0,0, calendar = 'gregorian', hours = 1, dt_atmos = 1800, dt_cpld = 3600 /
&air_nml ke = 65536, rc = 0, month = 6*1000, 2000, 5*1000 /
&ocean_nml dt_ocean = 3600 /
";

/// An hour that ends with the last second of the year 9999.
const LAST: &str =
    "&coupler_nml current_date = 9999,12,31,22,59,59, calendar = 'gregorian', hours = 1, dt_atmos = 3600, dt_cpld = 3600 /
&ocean_nml dt_ocean = 3600 /
";

/// One that ends a second later.
const LATE: &str =
    "&coupler_nml current_date = 9999,12,31,23,0,0, calendar = 'gregorian', hours = 1, dt_atmos = 3600, dt_cpld = 3600 /
&ocean_nml dt_ocean = 3600 /
";

/// Layouts that cut one cell in two: of the land, which is judged before the ocean, and of the ice.
const FINE_LAND: &str =
    "&coupler_nml current_date = 2001,3,1,0,0,0, calendar = 'gregorian', hours = 1, dt_atmos = 3600, dt_cpld = 3600 /
&ocean_nml dt_ocean = 3600 /
&layout_nml land_layout = 2,1, ocean_layout = 1,2 /
";

const FINE_ICE: &str =
    "&coupler_nml current_date = 2001,3,1,0,0,0, calendar = 'gregorian', hours = 1, dt_atmos = 3600, dt_cpld = 3600 /
&ocean_nml dt_ocean = 3600 /
&layout_nml ice_layout = 2,1 /
";

const FINE_AND_LATE: &str =
    "&coupler_nml current_date = 9999,12,31,23,0,0, calendar = 'gregorian', hours = 1, dt_atmos = 3600, dt_cpld = 3600 /
&ocean_nml dt_ocean = 3600 /
&layout_nml land_layout = 2,1 /
";

const START: Start = Start {
    elapsed: 0,
    water: 400,
    heat: 570_400,
    salt: 40,
};

const MOST: i64 = 4_611_686_018_427_387_903;

/// 2^62 - 1 of water and of salt, and of heat in all of the start.
const FULL: Start = Start {
    elapsed: 0,
    water: MOST,
    heat: MOST - 269_620,
    salt: MOST,
};

const CASES: [(&'static str, Start, Option<PlanError>); 12] = [
    (HOUR, START, None),
    (LAST, START, None),
    (LATE, START, Some(PlanError::Date(3_600))),
    (
        HOUR,
        Start {
            elapsed: i64::MAX,
            ..START
        },
        Some(PlanError::Date(i64::MAX)),
    ),
    (
        FINE_LAND,
        START,
        Some(PlanError::Layout(Component::Land, LayoutError::TooFine(0))),
    ),
    (
        FINE_ICE,
        START,
        Some(PlanError::Layout(Component::Ice, LayoutError::TooFine(0))),
    ),
    (
        FINE_AND_LATE,
        FULL,
        Some(PlanError::Layout(Component::Land, LayoutError::TooFine(0))),
    ),
    (LATE, FULL, Some(PlanError::Date(3_600))),
    // July brings 160 * 2 in each of two fast steps
    (
        HOUR,
        FULL,
        Some(PlanError::Budget(Quantity::Heat, 4_611_686_018_427_388_543)),
    ),
    // so much less is taken
    (
        HOUR,
        Start {
            heat: MOST - 269_620 - 640,
            ..START
        },
        None,
    ),
    (
        HOUR,
        Start { heat: 0, ..FULL },
        Some(PlanError::Budget(Quantity::Water, 4_611_686_018_427_388_053)),
    ),
    (
        HOUR,
        Start {
            salt: MOST,
            ..START
        },
        Some(PlanError::Budget(Quantity::Salt, 4_611_686_018_427_387_918)),
    ),
];

#[test]
fn the_first_fault_is_told(rt: HostRuntime) -> Result<(), Fail> {
    for (text, start, expected) in CASES {
        assert_eq!(rt; fault(rt.alloc(), text, start)?, expected);
    }
    Ok(())
}

/// Air, land, ice, ocean, and what flies to the ice and to the ocean.
const HELD: Holdings = Holdings {
    heat: Stocks {
        air: 44_800,
        land: 10_920,
        ice: 0,
        ocean: 570_400,
        to_ice: 142_600,
        to_ocean: 71_300,
    },
    water: Stocks {
        air: 0,
        land: 0,
        ice: 0,
        ocean: 400,
        to_ice: 100,
        to_ocean: 50,
    },
    salt: Stocks {
        air: 0,
        land: 0,
        ice: 0,
        ocean: 40,
        to_ice: 10,
        to_ocean: 5,
    },
};

#[test]
fn holdings_of_a_column(rt: HostRuntime) -> Result<(), Fail> {
    assert_eq!(rt; holdings(rt.alloc(), START)?, HELD);
    Ok(())
}

#[test]
fn a_full_ocean_is_summed_exactly(rt: HostRuntime) -> Result<(), Fail> {
    let full = holdings(rt.alloc(), FULL)?;
    assert_eq!(rt; full.heat.ocean, i128::from(MOST - 269_620));
    assert_eq!(rt; full.salt.ocean, i128::from(MOST));
    Ok(())
}

/// The hour of the example: one fast step and one of the ocean.
const EXAMPLE: &str =
    "&coupler_nml current_date = 2001,3,1,0,0,0, calendar = 'gregorian', hours = 1, dt_atmos = 3600, dt_cpld = 3600 /
&air_nml ke = 65536, rc = 0 /
&ocean_nml dt_ocean = 3600 /
";

/// From air to land and to ice, from land to ice, from the ocean to the ice and back: heat, water and salt of each. The ocean gives
/// a quarter of what it holds after it added the flight; what it and the ice take is the start's flights.
const MOVED: StepTally = StepTally {
    entered: 140,
    left: 43,
    gave: [
        27, 0, 0, -12_770, -2, 0, 0, 0, 0, 160_425, 112, 11, 129_938, 98, 10,
    ],
    took: [
        27, 0, 0, -12_770, -2, 0, 0, 0, 0, 142_600, 100, 10, 71_300, 50, 5,
    ],
};

#[test]
fn a_step_of_a_column(rt: HostRuntime) -> Result<(), Fail> {
    let (tally, whole) = first_step(rt.alloc(), EXAMPLE, START)?;
    assert_eq!(rt; tally, MOVED);
    assert_eq!(rt; whole.elapsed, 3_600);
    let lists = [
        (&whole.air_heat, [57_500].as_slice()),
        (&whole.air_vapour, [2].as_slice()),
        (&whole.land_heat, [10_979].as_slice()),
        (&whole.land_water, [0].as_slice()),
        (&whole.water, [338].as_slice()),
        (&whole.heat, [481_275].as_slice()),
        (&whole.salt, [34].as_slice()),
        (&whole.to_ice, [0, 0, 112, 160_425, 11].as_slice()),
        (&whole.to_ocean, [98, 129_938, 10].as_slice()),
    ];
    for (list, numbers) in lists {
        assert_eq!(rt; list.as_slice(), numbers);
    }
    Ok(())
}

/// The fast step of that hour. For the land element the heat flux is 27, and nothing evaporates; for the skin element 82 of heat flow
/// down, 4 of water evaporate and 2 of rain fall, so the skin takes 82 - 4 * VAPOUR_HEAT + 2 * WATER_HEAT of heat, with 3,926 and
/// 1,426: -12,770. The sun absorbed is 32 and 108, and 43 of heat go to space.
const FLOWED: FastTally = FastTally {
    entered: 140,
    left: 43,
    gave: [27, 0, -12_770, -2],
    took: [27, 0, -12_770, -2],
};

#[test]
fn a_fast_step_of_a_column(rt: HostRuntime) -> Result<(), Fail> {
    let (tally, mid) = first_fast_step(rt.alloc(), EXAMPLE, START)?;
    assert_eq!(rt; tally, FLOWED);
    let lists = [
        (&mid.whole.air_heat, [57_500].as_slice()),
        (&mid.whole.air_vapour, [2].as_slice()),
        (&mid.whole.land_heat, [10_979].as_slice()),
        (&mid.whole.land_water, [0].as_slice()),
        (&mid.skin_water, [98].as_slice()),
        (&mid.skin_heat, [129_938].as_slice()),
        (&mid.skin_salt, [10].as_slice()),
    ];
    for (list, numbers) in lists {
        assert_eq!(rt; list.as_slice(), numbers);
    }
    Ok(())
}
