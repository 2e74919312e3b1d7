// What moves through the sides of a cell.
ghost use Rattle.std.specs.Prelude.{◌≡◌, ◌≤◌, ◌<◌, nat_lt};
ghost use Rattle.cpl_field.specs.Crossings.{IsSideOf};
ghost use Rattle.cpl_field.specs.Spots.{CellAt, IsSpot, IsSameShape, number_at, out_from};
ghost use Rattle.cpl_fixed.specs.Amounts.{amount};
ghost use Rattle.cpl_transport.specs.Heights.{IsFaceNumber, IsHeight};
ghost use Rattle.cpl_transport.specs.Salts.{AreSmall, IsSalty};
ghost use Rattle.cpl_ocean.specs.Layers.{AreOf, salty_at};
ghost use Rattle.cpl_ocean.specs.Flows.{AreHeights, behind, beyond, flow_out, is_open, next_number};
ghost use Rattle.cpl_ocean.specs.Sweeps.{CanTransport, left_in};

use crate::basin::Basin;
use crate::fields::Fields;
use cpl_field::{Faces, Field};
use cpl_ice::{NOTHING, Salty};
use cpl_mosaic::{Side, opposite};
use cpl_transport::{next_face, sum_of_sides, through, without};

// Whether there is a column over this area.
#[inline(always)]
fn is_wet(area: i64) -> bool
    ensures { result ≡ nat_lt 0 (amount area) }
{
    area != 0
}

// Whether a side of a cell has no wall.
#[inline(always)]
fn is_open(area: &Field, i: u32, j: u32, side: Side) -> bool
    requires cell { IsSpot area.now (CellAt i j) }
    requires width { area.now.width ≡ 2 }
    ensures { result ≡ is_open area.now i j side }
{
    is_wet(area.get(i, j)) && is_wet(area.at(i, j, side, 1))
}

// The number of the face of a side after a step, outward.
#[inline(always)]
pub(crate) fn next_number(
    area: &Field,
    heights: &Field,
    slope: u32,
    faces: &Faces,
    i: u32,
    j: u32,
    side: Side,
) -> i64
    requires slope { slope ≤ 40 }
    requires cell { IsSpot area.now (CellAt i j) }
    requires width { area.now.width ≡ 2 }
    requires shape { IsSameShape area.now heights.now }
    requires heights { AreHeights heights.now }
    requires side { IsSideOf faces.now (record { i = i; j = j; side = side }) }
    ensures value { result ≡ next_number area.now (number_at heights.now) slope faces.now i j side }
    ensures range { IsFaceNumber result }
{
    if is_open(area, i, j, side) {
        let u = faces.side(i, j, side);
        next_face(slope, u, heights.get(i, j), heights.at(i, j, side, 1))
    } else {
        0
    }
}

// The cell behind a cell, opposite a side, or the cell itself where a wall lies between.
#[inline(always)]
fn behind(area: &Field, fields: &Fields, i: u32, j: u32, side: Side) -> Salty
    requires cell { IsSpot area.now (CellAt i j) }
    requires width { area.now.width ≡ 2 }
    requires fields { AreOf area.now fields.now }
    ensures { result ≡ salty_at fields.now (behind area.now i j side) }
{
    let back = opposite(side);
    if is_wet(area.at(i, j, back, 1)) {
        fields.at(i, j, back, 1)
    } else {
        fields.get(i, j)
    }
}

// The cell beyond the one across a side, or that one itself where a wall lies between.
#[inline(always)]
fn beyond(area: &Field, fields: &Fields, i: u32, j: u32, side: Side) -> Salty
    requires cell { IsSpot area.now (CellAt i j) }
    requires width { area.now.width ≡ 2 }
    requires fields { AreOf area.now fields.now }
    ensures { result ≡ salty_at fields.now (beyond area.now i j side) }
{
    if is_wet(area.at(i, j, side, 2)) {
        fields.at(i, j, side, 2)
    } else {
        fields.at(i, j, side, 1)
    }
}

/// What moves outward through a side of a cell.
#[inline(always)]
pub(crate) fn flow_out(
    basin: &Basin,
    slope: u32,
    fields: &Fields,
    i: u32,
    j: u32,
    side: Side,
) -> Salty
    requires from { CanTransport basin.now slope fields.now }
    requires cell { IsSpot basin.now.area (CellAt i j) }
    ensures value { result ≡ flow_out basin.now.area (number_at basin.now.heights) slope fields.now i j side }
    ensures small { AreSmall result }
{
    let (area, heights) = (&basin.area, &basin.heights);
    if !is_open(area, i, j, side) {
        return NOTHING;
    }
    let u = next_number(area, heights, slope, &fields.faces, i, j, side);
    let behind = behind(area, fields, i, j, side);
    let beyond = beyond(area, fields, i, j, side);
    through(
        u,
        behind,
        fields.get(i, j),
        fields.at(i, j, side, 1),
        beyond,
    )
}

// What the transport leaves in a cell.
pub(crate) fn transported(basin: &Basin, slope: u32, fields: &Fields, i: u32, j: u32) -> Salty
    requires from { CanTransport basin.now slope fields.now }
    requires cell { IsSpot basin.now.area (CellAt i j) }
    ensures { result ≡ left_in basin.now slope fields.now i j }
{
    let west = flow_out(basin, slope, fields, i, j, Side::W);
    let east = flow_out(basin, slope, fields, i, j, Side::E);
    let south = flow_out(basin, slope, fields, i, j, Side::S);
    let north = flow_out(basin, slope, fields, i, j, Side::N);
    without(fields.get(i, j), sum_of_sides(west, east, south, north))
}
