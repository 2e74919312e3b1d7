// Computed amounts, put into a field.
ghost use Rattle.std.specs.Prelude.{◌≡◌, ◌*◌, length};
ghost use Rattle.cpl_field.specs.Spots.{IsSameShape};
ghost use Rattle.cpl_atmos.specs.Rows.{StoresValues};

use crate::areas::Areas;
use cpl_field::{Field, part};

/// Sets the cells of a field to the computed amounts, row by row.
pub(crate) fn store(areas: &Areas, values: &[i64], x: &mut Field)
    requires shape { IsSameShape areas.now x.old }
    requires values { length values.now ≡ areas.now.nx * areas.now.ny }
    ensures { StoresValues areas.now values.now x.old x.new }
{
    let nx = areas.nx as usize;
    for j in 0..areas.ny {
        x.set_row(j, part(values, j as usize * nx, nx));
    }
}
