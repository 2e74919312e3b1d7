// The cells of a piece that have no side on its edge.
ghost use Rattle.std.specs.Prelude.{◌≡◌, ◌+◌, ◌-◌, ◌*◌, ◌^◌, ◌<◌, ◌≤◌, length, pos, ◌-ℤ◌, ◌<ℤ◌};
ghost use Rattle.cpl_field.specs.Spots.{IsSameShape};
ghost use Rattle.cpl_field.specs.Sweeps.{IsInSpan};
ghost use Rattle.cpl_atmos.specs.Sweeps.{AreCellAmounts, Computes, IsInner, flow_out};
ghost use Rattle.cpl_atmos.specs.Rows.{AreSouths};

use crate::areas::{Areas, flow_across};
use cpl_field::Field;
use cpl_mosaic::Side;

// What flows out of a cell through a side, where it has no side on the piece's edge.
fn inner_flow(areas: &Areas, x: &Field, i: u32, j: u32, side: Side) -> i64
    requires cell { IsInner areas.now i j }
    requires shape { IsSameShape areas.now x.now }
    requires amounts { AreCellAmounts x.now }
    ensures value { result ≡ flow_out areas.now x.now i j side }
    ensures low { (pos 0 -ℤ pos (2 ^ 59)) <ℤ result }
    ensures high { result <ℤ pos (2 ^ 59) }
{
    areas.flow_out(x, i, j, side)
}

// What the inner cells of row j lose through their south sides.
fn south_losses(areas: &Areas, x: &Field, j: u32, souths: &mut [i64])
    requires row { (1 ≤ j) × (j + 1 < areas.now.ny) }
    requires columns { 3 ≤ areas.now.nx }
    requires shape { IsSameShape areas.now x.now }
    requires amounts { AreCellAmounts x.now }
    requires souths { length souths.old ≡ areas.now.nx }
    ensures { AreSouths areas.now x.now j souths.new }
{
    for i in 1..areas.nx - 1 {
        souths[i as usize] = inner_flow(areas, x, i, j, Side::S);
    }
}

// The amounts of the inner cells of row j after a step. The flow between two of them is taken once: what a cell loses through
// its east or north side, the next cell of the row or of the column gains. `souths` has what the row's cells lose through their
// south sides, and then what those of the next row do.
fn inner_row(areas: &Areas, x: &Field, j: u32, souths: &mut [i64], values: &mut [i64])
    requires row { (1 ≤ j) × (j + 1 < areas.now.ny) }
    requires columns { 3 ≤ areas.now.nx }
    requires shape { IsSameShape areas.now x.now }
    requires amounts { AreCellAmounts x.now }
    requires souths { AreSouths areas.now x.now j souths.old }
    requires values { length values.old ≡ areas.now.nx * areas.now.ny }
    ensures souths { AreSouths areas.now x.now (j + 1) souths.new }
    ensures values { Computes areas.now x.now (IsInSpan 1 (areas.now.nx - 1) j) values.old values.new }
{
    let nx = areas.nx as usize;
    let here = x.row(j + 1);
    let above = x.row(j + 2);
    let area = areas.area.row(j + 1);
    let area_above = areas.area.row(j + 2);
    let eastward = areas.eastward.as_slice();
    let northward = areas.northward.as_slice();
    let first = j as usize * nx;
    let first_east = j as usize * (nx + 1);
    let first_north = (j as usize + 1) * nx;
    let mut west = inner_flow(areas, x, 1, j, Side::W);
    for i in 1..nx - 1 {
        let amount = here[i + 1];
        let own = area[i + 1];
        let east = flow_across(
            eastward[first_east + i + 1],
            amount,
            own,
            here[i + 2],
            area[i + 2],
        );
        let north = flow_across(
            northward[first_north + i],
            amount,
            own,
            above[i + 1],
            area_above[i + 1],
        );
        values[first + i] = amount - (west + east + souths[i] + north);
        souths[i] = -north;
        west = -east;
    }
}

/// Computes the amounts after a step of the cells that have no side on the piece's edge. `souths` has as many numbers as a row
/// has cells, whatever they are.
pub(crate) fn sweep_inner(areas: &Areas, x: &Field, souths: &mut [i64], values: &mut [i64])
    requires shape { IsSameShape areas.now x.now }
    requires amounts { AreCellAmounts x.now }
    requires souths { length souths.old ≡ areas.now.nx }
    requires values { length values.old ≡ areas.now.nx * areas.now.ny }
    ensures { Computes areas.now x.now (IsInner areas.now) values.old values.new }
{
    if areas.nx < 3 || areas.ny < 3 {
        return;
    }
    south_losses(areas, x, 1, souths);
    for j in 1..areas.ny - 1 {
        inner_row(areas, x, j, souths, values);
    }
}
