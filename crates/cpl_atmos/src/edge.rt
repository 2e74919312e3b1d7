// The cells of a piece along its edge.
ghost use Rattle.std.specs.Prelude.{◌≡◌, ◌*◌, ◌<◌, ◌≤◌, length};
ghost use Rattle.cpl_field.specs.Spots.{IsSameShape};
ghost use Rattle.cpl_field.specs.Sweeps.{IsInSpan, IsRimOfRow};
ghost use Rattle.cpl_atmos.specs.Sweeps.{AreAmounts, Computes, IsRim};

use crate::areas::Areas;
use cpl_field::Field;

// The amounts of some cells of row j after a step.
fn span(areas: &Areas, x: &Field, j: u32, from: u32, to: u32, values: &mut [i64])
    requires row { j < areas.now.ny }
    requires columns { (from ≤ to) × (to ≤ areas.now.nx) }
    requires shape { IsSameShape areas.now x.now }
    requires amounts { AreAmounts x.now }
    requires values { length values.old ≡ areas.now.nx * areas.now.ny }
    ensures { Computes areas.now x.now (IsInSpan from to j) values.old values.new }
{
    let first = (j * areas.nx) as usize;
    for i in from..to {
        values[first + i as usize] = areas.next_at(x, i, j);
    }
}

// The amounts after a step of the cells of row j that have a side on the piece's edge.
fn edge_row(areas: &Areas, x: &Field, j: u32, values: &mut [i64])
    requires row { j < areas.now.ny }
    requires shape { IsSameShape areas.now x.now }
    requires amounts { AreAmounts x.now }
    requires values { length values.old ≡ areas.now.nx * areas.now.ny }
    ensures { Computes areas.now x.now (IsRimOfRow 1 areas.now j) values.old values.new }
{
    let nx = areas.nx;
    if j == 0 || j + 1 == areas.ny {
        span(areas, x, j, 0, nx, values);
        return;
    }
    span(areas, x, j, 0, 1, values);
    span(areas, x, j, nx - 1, nx, values);
}

/// Computes the amounts after a step of the cells that have a side on the piece's edge.
pub(crate) fn sweep_edge(areas: &Areas, x: &Field, values: &mut [i64])
    requires shape { IsSameShape areas.now x.now }
    requires amounts { AreAmounts x.now }
    requires values { length values.old ≡ areas.now.nx * areas.now.ny }
    ensures { Computes areas.now x.now (IsRim areas.now) values.old values.new }
{
    for j in 0..areas.ny {
        edge_row(areas, x, j, values);
    }
}
