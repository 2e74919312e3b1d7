// Fluxes of elements.
ghost use Rattle.std.specs.Prelude.{◌≡◌, pos};
ghost use Rattle.cpl_fixed.specs.Ranges.{AreRates};
ghost use Rattle.cpl_flux.specs.Elements.{IsAirSide, IsPart, IsElement};

use crate::rates::strong;
use cpl_fixed::Rates;
use cpl_flux::{AirSide, Kind, Part, element};
use cpl_samples::example_rates;
use std::process::Abort;

/// The area of the largest cell.
const WIDE: i64 = 1_099_511_627_776;

// Looks whether an element takes this heat from the air and gives it this water.
fn gives(rt: &impl Abort, rates: &Rates, air: AirSide, part: Part, b: i64, flux: (i64, i64))
    requires rates { AreRates rates.now }
    requires air { IsAirSide air }
    requires part { IsPart part }
    requires element { IsElement air part b }
{
    let found = element(rates, &air, &part, b);
    assert_eq!(rt; found.heat, flux.0);
    assert_eq!(rt; found.water, flux.1);
}

fn air(heat: i64, vapour: i64, area: i64) -> AirSide
    ensures { result ≡ record { heat = heat; vapour = vapour; area = area } }
{
    AirSide { heat, vapour, area }
}

fn part(kind: Kind, heat: i64, mass: i64, area: i64) -> Part
    ensures { result ≡ record { kind = kind; heat = heat; mass = mass; area = area } }
{
    Part {
        kind,
        heat,
        mass,
        area,
    }
}

#[test]
fn elements_of_one_column(rt: HostRuntime) {
    let warm = air(44_800, 0, 16);
    // The air has 280000 millikelvin, the land 273000: 1024 * 4 * 7000 / 2^20 is 27.3. There is no water.
    gives(
        &rt,
        &example_rates(),
        warm,
        part(Kind::Land, 10_920, 0, 4),
        4,
        (27, 0),
    );
    // The skin has 273000: 1024 * 12 * 7000 / 2^20 is 82.03. Saturation is 330, so that 65536 * 12 * 330 / 2^20 is 247.5, an eighth
    // of the water 12.5, and what an eighth of the heat carries off 142600 / 8 / 3926, which is 4.5.
    gives(
        &rt,
        &example_rates(),
        warm,
        part(Kind::Water, 142_600, 100, 12),
        12,
        (82, 4),
    );
    // Ice with the same temperature gives no water.
    gives(
        &rt,
        &example_rates(),
        warm,
        part(Kind::Ice, 109_200, 100, 12),
        12,
        (82, 0),
    );
    // An element of area 0, also of a part without area.
    gives(
        &rt,
        &example_rates(),
        warm,
        part(Kind::Ice, 0, 0, 0),
        0,
        (0, 0),
    );
}

// Products above 64 bits. The expected numbers are exact quotients of them.
#[test]
fn elements_with_wide_products(rt: HostRuntime) {
    // 1000 * h, cl * B + 4 * ws, kh * b * dT: the air has 279844, the land 162 millikelvin; 2^20 * (2^40 - 1) * 279682 / 2^20.
    gives(
        &rt,
        &strong(13_000),
        air(4_000_000_000_000_000_000, 0, WIDE),
        part(
            Kind::Land,
            3_000_000_000_000_000_000,
            4_611_686_018_427_387_903,
            WIDE,
        ),
        WIDE - 1,
        (307_513_611_079_367_550, 0),
    );
    // ke * b * dryness, and hs * b over 8 * B * 3926, which is the least.
    gives(
        &rt,
        &strong(13_000),
        air(4_000_000_000_000_000_000, 0, WIDE),
        part(
            Kind::Water,
            4_000_000_000_000_000_000,
            2_000_000_000_000_000,
            WIDE - 5,
        ),
        WIDE - 7,
        (-132_112_919_146_211_964, 127_356_087_620_756),
    );
    // 3926 * v and v * hs: humidity is 1600. hs * b over 8 * B bounds the heat.
    gives(
        &rt,
        &strong(1_048_576),
        air(1_000_000_000_000, 1_000_000_000_000_000_000, WIDE),
        part(
            Kind::Land,
            3_000_000_000_000_000_000,
            1_000_000_000_000_000,
            WIDE,
        ),
        WIDE - 3,
        (-374_999_999_998_976_818, 0),
    );
    // ws * b over 8 * B bounds the water.
    gives(
        &rt,
        &strong(1_048_576),
        air(1_000_000_000_000, 1_000, WIDE),
        part(Kind::Land, 50_000_000_000_000_000, 10_000_000_000_001, WIDE),
        WIDE - 3,
        (-6_249_999_999_982_946, 1_249_999_999_996),
    );
    // h * b over 8 * A bounds the heat: the air has 909 millikelvin, the land none.
    gives(
        &rt,
        &strong(1),
        air(1_000_000_000_000, 0, WIDE),
        part(Kind::Land, 0, 0, WIDE),
        WIDE - 3,
        (124_999_999_999, 0),
    );
}
