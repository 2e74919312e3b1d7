// Cells of the land and of the ice.
ghost use Rattle.std.specs.Prelude.{◌≡◌, ◌+ℤ◌, ◌≤ℤ◌, pos, [], ◌∷◌};
ghost use Rattle.cpl_ice.specs.Cells.{IsAmount, IsIceCell, HasNoFlight};
ghost use Rattle.cpl_ice.specs.Slow.{heat_of, water_of};

use cpl_fixed::{Gain, share};
use cpl_ice::{IceCell, NOTHING, Salty, ToIce};
use cpl_land::LandCell;
use cpl_samples::example_rates;

// A cell of area 12 with one category, and with neither frazil nor skin.
fn one_category(water: i64, part: i64, ice: i64, heat: i64) -> IceCell
    requires water { IsAmount water }
    requires part { IsAmount part }
    requires whole { water +ℤ part ≡ pos 65_536 }
    requires ice { IsAmount ice }
    requires heat { IsAmount heat }
    ensures cell { IsIceCell result }
    ensures empty { HasNoFlight result }
    ensures category { result.categories ≡ 1 }
    ensures all_water { water_of result ≡ ice }
    ensures all_heat { heat_of result ≡ heat }
{
    IceCell {
        area: 12,
        categories: 1,
        parts: [water, part, 0, 0, 0, 0],
        ice: [ice, 0, 0, 0, 0],
        heat: [heat, 0, 0, 0, 0],
        frazil_water: 0,
        frazil_heat: 0,
        skin: NOTHING,
    }
}

#[test]
fn land_gains_and_runs_off(rt: HostRuntime) {
    let mut cell = LandCell {
        heat: 71_000,
        water: 45,
        area: 4,
    };
    cell.fast(Gain {
        heat: 300,
        water: 5,
    });
    // 50 of water stand above 4 * 10, with 10 * 1426 of heat.
    let runoff = cell.slow(&example_rates());
    assert_eq!(rt; (runoff.water, runoff.heat), (10, 14_260));
    assert_eq!(rt; (cell.water, cell.heat), (40, 57_040));
    // Outlets of weights 1 and 2: a third rounded down, and what it leaves.
    assert_eq!(rt; (share(10, 0, 1, 3), share(14_260, 0, 1, 3)), (3, 4_753));
    assert_eq!(rt; (share(10, 1, 3, 3), share(14_260, 1, 3, 3)), (7, 9_507));
}

#[test]
fn ice_melts(rt: HostRuntime) {
    let nothing = Gain { heat: 0, water: 0 };
    // 334 of heat above 10 * 1092 melt one unit.
    let mut cell = one_category(60_000, 5_536, 10, 11_254);
    let back = cell.slow(&example_rates(), nothing);
    assert_eq!(rt; (back.water, back.heat, back.salt), (1, 1_426, 0));
    assert_eq!(rt; (cell.ice[0], cell.heat[0]), (9, 9_828));
    assert_eq!(rt; (cell.parts[0], cell.parts[1]), (60_000, 5_536));
    // 3340 of heat above it melt all, and the part becomes open water.
    let mut cell = one_category(60_000, 5_536, 10, 14_260);
    let back = cell.slow(&example_rates(), nothing);
    assert_eq!(rt; (back.water, back.heat, back.salt), (10, 14_260, 0));
    assert_eq!(rt; (cell.ice[0], cell.heat[0]), (0, 0));
    assert_eq!(rt; (cell.parts[0], cell.parts[1]), (65_536, 0));
}

// A cell of area 16 with three categories, of which two have ice as cold as frazil, with neither frazil nor skin.
fn three_categories() -> IceCell
    ensures cell { IsIceCell result }
    ensures empty { HasNoFlight result }
    ensures all_water { water_of result ≡ pos 170 }
    ensures all_heat { heat_of result ≡ pos 185_640 }
{
    IceCell {
        area: 16,
        categories: 3,
        parts: [32_768, 16_384, 16_384, 0, 0, 0],
        ice: [130, 40, 0, 0, 0],
        heat: [141_960, 43_680, 0, 0, 0],
        frazil_water: 0,
        frazil_heat: 0,
        skin: NOTHING,
    }
}

#[test]
fn ice_freezes_and_ridges(rt: HostRuntime) {
    let mut cell = three_categories();
    cell.take(ToIce {
        frazil_water: 8,
        frazil_heat: 8_736,
        skin: Salty {
            water: 100,
            heat: 142_600,
            salt: 10,
        },
    });
    let runoff = Gain {
        heat: 14_260,
        water: 10,
    };
    let back = cell.slow(&example_rates(), runoff);
    // The skin leaves with the runoff, and nothing melts.
    assert_eq!(rt; (back.water, back.heat, back.salt), (110, 156_860, 10));
    // 8 of frazil close 8 * 65536 / 1600 of the open water, 327. Category 1 has 138 then, above 10 * 16 * 16711 / 65536, and joins
    // category 2. That has 178 then, above 20 * 16 * 33095 / 65536, which is 161, and joins category 3. Alone it had 40.
    assert_eq!(rt; cell.parts, [32_441, 0, 0, 33_095, 0, 0]);
    assert_eq!(rt; cell.ice, [0, 0, 178, 0, 0]);
    assert_eq!(rt; cell.heat, [0, 0, 194_376, 0, 0]);
}
