// The cells of a layer with at least two cells of the piece between them and each of its edges.
ghost use Rattle.std.specs.Prelude.{◌≡◌, ◌+◌, ◌-◌, ◌*◌, ◌<◌, ◌≤◌, length};
ghost use Rattle.cpl_field.specs.Sweeps.{IsInSpan};
ghost use Rattle.cpl_ocean.specs.Rows.{AreSouths};
ghost use Rattle.cpl_ocean.specs.Sweeps.{CanTransport, Computes, IsInner, left_in};

use crate::basin::Basin;
use crate::fields::Fields;
use crate::flows::flow_out;
use cpl_ice::Salty;
use cpl_mosaic::Side;
use cpl_transport::{face_law, sum_of_sides, turned, without};

// What moves out of the inner cells of row j through their south sides.
fn south_flows(basin: &Basin, slope: u32, fields: &Fields, j: u32, souths: &mut [Salty])
    requires from { CanTransport basin.now slope fields.now }
    requires row { j < basin.now.ny }
    requires columns { 5 ≤ basin.now.nx }
    requires souths { length souths.old ≡ basin.now.nx }
    ensures { AreSouths basin.now slope fields.now j souths.new }
{
    for i in 2..basin.nx - 2 {
        souths[i as usize] = flow_out(basin, slope, fields, i, j, Side::S);
    }
}

// What the transport leaves in the inner cells of row j. What moves through a face between two cells is taken once: what leaves a
// cell through its east or north side comes to the next cell of the row or of the column. `souths` has what moves out of the row's
// cells through their south sides, and then what does out of those of the next row.
fn inner_row(
    basin: &Basin,
    slope: u32,
    fields: &Fields,
    j: u32,
    souths: &mut [Salty],
    left: &mut [Salty],
)
    requires from { CanTransport basin.now slope fields.now }
    requires row { (2 ≤ j) × (j + 2 < basin.now.ny) }
    requires columns { 5 ≤ basin.now.nx }
    requires souths { AreSouths basin.now slope fields.now j souths.old }
    requires left { length left.old ≡ basin.now.nx * basin.now.ny }
    ensures souths { AreSouths basin.now slope fields.now (j + 1) souths.new }
    ensures left { Computes basin.now.area (left_in basin.now slope fields.now) (IsInSpan 2 (basin.now.nx - 2) j) left.old left.new }
{
    // Two cells see the number of the face between them with opposite signs.
    face_law();
    let first = (j * basin.nx) as usize;
    let mut west = flow_out(basin, slope, fields, 2, j, Side::W);
    for i in 2..basin.nx - 2 {
        let at = i as usize;
        let east = flow_out(basin, slope, fields, i, j, Side::E);
        let north = flow_out(basin, slope, fields, i, j, Side::N);
        let out = sum_of_sides(west, east, souths[at], north);
        left[first + at] = without(fields.get(i, j), out);
        souths[at] = turned(north);
        west = turned(east);
    }
}

/// Computes what the transport leaves in the cells with at least two cells of the piece between them and each of its edges.
/// `souths` has room for one row, whatever stands in it.
pub(crate) fn sweep_inner(
    basin: &Basin,
    slope: u32,
    fields: &Fields,
    souths: &mut [Salty],
    left: &mut [Salty],
)
    requires from { CanTransport basin.now slope fields.now }
    requires souths { length souths.old ≡ basin.now.nx }
    requires left { length left.old ≡ basin.now.nx * basin.now.ny }
    ensures { Computes basin.now.area (left_in basin.now slope fields.now) (IsInner basin.now.area) left.old left.new }
{
    if basin.nx < 5 || basin.ny < 5 {
        return;
    }
    south_flows(basin, slope, fields, 2, souths);
    for j in 2..basin.ny - 2 {
        inner_row(basin, slope, fields, j, souths, left);
    }
}
