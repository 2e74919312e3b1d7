// The moves of the parts of a script, by component.
ghost use Rattle.std.specs.Prelude.{◌≡◌, ◌≤◌, length};
ghost use Rattle.cpl_wires.specs.Turns.{opening, fast_moves, ocean_moves, closing, summing};

use crate::parts::Job::*;
use crate::parts::Move;
use crate::parts::Move::{Does, Posts, Takes};
use crate::parts::Purpose::*;
use cpl_fixed::Component;

// As a coupling step begins.
pub(crate) fn opening(component: Component, is_first: bool) -> &'static [Move]
    ensures moves { result.now ≡ opening component is_first }
    ensures few { length result.now ≤ 9 }
{
    match (component, is_first) {
        (Component::Ice, true) => &[Does(IceTake)],
        (Component::Ice, false) => &[Takes(OceanToIce), Does(IceTake)],
        (Component::Ocean, true) => &[Does(OceanAdd)],
        (Component::Ocean, false) => &[Takes(IceToOcean), Does(OceanAdd)],
        _ => &[],
    }
}

// In each fast step.
pub(crate) fn fast_moves(component: Component) -> &'static [Move]
    ensures moves { result.now ≡ fast_moves component }
    ensures few { length result.now ≤ 9 }
{
    match component {
        Component::Atmos => &[
            Takes(LandToAir),
            Takes(IceToAir),
            Does(AirFlux),
            Posts(AirToLand),
            Posts(AirToIce),
            Posts(AirHalo),
            Does(AirInner),
            Takes(AirHalo),
            Does(AirRim),
        ],
        Component::Land => &[Posts(LandToAir), Takes(AirToLand), Does(LandFast)],
        Component::Ice => &[Posts(IceToAir), Takes(AirToIce), Does(IceFast)],
        Component::Ocean => &[],
    }
}

// In each ocean step.
pub(crate) fn ocean_moves(component: Component) -> &'static [Move]
    ensures moves { result.now ≡ ocean_moves component }
    ensures few { length result.now ≤ 9 }
{
    match component {
        Component::Ocean => &[
            Posts(OceanHalo),
            Does(OceanInner),
            Takes(OceanHalo),
            Does(OceanRim),
        ],
        _ => &[],
    }
}

// As a coupling step ends.
pub(crate) fn closing(component: Component, is_last: bool) -> &'static [Move]
    ensures moves { result.now ≡ closing component is_last }
    ensures few { length result.now ≤ 9 }
{
    match (component, is_last) {
        (Component::Land, _) => &[Does(LandSlow), Posts(LandToIce)],
        (Component::Ice, true) => &[Takes(LandToIce), Does(IceSlow)],
        (Component::Ice, false) => &[Takes(LandToIce), Does(IceSlow), Posts(IceToOcean)],
        (Component::Ocean, true) => &[Does(OceanCut)],
        (Component::Ocean, false) => &[Does(OceanCut), Posts(OceanToIce)],
        _ => &[],
    }
}

// Before the first coupling step and after each.
pub(crate) fn summing(is_first_piece: bool) -> &'static [Move]
    ensures moves { result.now ≡ summing is_first_piece }
    ensures few { length result.now ≤ 9 }
{
    if is_first_piece {
        &[Posts(Sums), Takes(Sums), Does(Gather)]
    } else {
        &[Posts(Sums)]
    }
}
