// What the transport leaves in the cells of one layer of a piece.
ghost use Rattle.std.specs.Prelude.{◌≡◌, ◌*◌, ◌<◌, ◌≤◌, length};
ghost use Rattle.cpl_field.specs.Sweeps.{IsInSpan, IsRimOfRow};
ghost use Rattle.cpl_ocean.specs.Sweeps.{CanTransport, Computes, IsRim, left_in};
ghost use Rattle.cpl_ocean.specs.Zones.{IsIn};

use crate::basin::Basin;
use crate::fields::Fields;
use crate::flows::transported;
use crate::inner::sweep_inner;
use crate::zone::Zone;
use cpl_ice::Salty;

// Some cells of row j.
fn span(basin: &Basin, slope: u32, fields: &Fields, j: u32, from: u32, to: u32, left: &mut [Salty])
    requires from { CanTransport basin.now slope fields.now }
    requires row { j < basin.now.ny }
    requires columns { (from ≤ to) × (to ≤ basin.now.nx) }
    requires left { length left.old ≡ basin.now.nx * basin.now.ny }
    ensures { Computes basin.now.area (left_in basin.now slope fields.now) (IsInSpan from to j) left.old left.new }
{
    let first = (j * basin.nx) as usize;
    for i in from..to {
        left[first + i as usize] = transported(basin, slope, fields, i, j);
    }
}

// The cells of row j with fewer than two cells of the piece between them and one of its edges.
fn rim_row(basin: &Basin, slope: u32, fields: &Fields, j: u32, left: &mut [Salty])
    requires from { CanTransport basin.now slope fields.now }
    requires row { j < basin.now.ny }
    requires left { length left.old ≡ basin.now.nx * basin.now.ny }
    ensures { Computes basin.now.area (left_in basin.now slope fields.now) (IsRimOfRow 2 basin.now.area j) left.old left.new }
{
    let nx = basin.nx;
    if nx < 5 || j < 2 || j + 2 >= basin.ny {
        span(basin, slope, fields, j, 0, nx, left);
        return;
    }
    span(basin, slope, fields, j, 0, 2, left);
    span(basin, slope, fields, j, nx - 2, nx, left);
}

// All such cells.
fn sweep_rim(basin: &Basin, slope: u32, fields: &Fields, left: &mut [Salty])
    requires from { CanTransport basin.now slope fields.now }
    requires left { length left.old ≡ basin.now.nx * basin.now.ny }
    ensures { Computes basin.now.area (left_in basin.now slope fields.now) (IsRim basin.now.area) left.old left.new }
{
    for j in 0..basin.ny {
        rim_row(basin, slope, fields, j, left);
    }
}

/// Computes what the transport leaves in the cells of a zone. `souths` has room for one row, whatever stands in it.
pub(crate) fn sweep(
    basin: &Basin,
    slope: u32,
    fields: &Fields,
    zone: Zone,
    souths: &mut [Salty],
    left: &mut [Salty],
)
    requires from { CanTransport basin.now slope fields.now }
    requires souths { length souths.old ≡ basin.now.nx }
    requires left { length left.old ≡ basin.now.nx * basin.now.ny }
    ensures { Computes basin.now.area (left_in basin.now slope fields.now) (IsIn zone basin.now.area) left.old left.new }
{
    match zone {
        Zone::Inner => sweep_inner(basin, slope, fields, souths, left),
        Zone::Rim => sweep_rim(basin, slope, fields, left),
    }
}
