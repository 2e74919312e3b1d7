// The divisors of the flows through the faces of a piece.
ghost use Rattle.std.specs.Prelude.{◌≡◌, ◌<◌, ◌≤◌, ◌^◌, length, pos, ◌≤ℤ◌, IfOk};
ghost use Rattle.cpl_field.specs.Spots.{IsShape};
ghost use Rattle.cpl_atmos.specs.Sweeps.{AreAirAreas};
ghost use Rattle.cpl_atmos.specs.Faces.{IsDivisor, AreEastward, AreNorthward};

use cpl_field::Field;
use cpl_fixed::FaceDivisor;
use std::alloc::{AllocError, Global};

// The divisor of the flows between two areas. Between a wall and what lies before it nothing flows, and any divisor stands.
fn divisor_of(a: i64, b: i64) -> FaceDivisor
    requires most { a ≤ℤ pos (2 ^ 40) }
    requires other_most { b ≤ℤ pos (2 ^ 40) }
    ensures { IsDivisor result a b }
{
    if a > 0 && b > 0 {
        FaceDivisor::new(a, b)
    } else {
        FaceDivisor::new(1, 1)
    }
}

/// The divisors of the faces of a piece that are crossed from lower to higher `i`, row by row.
pub(crate) fn eastward_faces(
    alloc: Global,
    area: &Field,
    nx: u32,
    ny: u32,
) -> Result<Vec<FaceDivisor>, AllocError>
    requires columns { area.now.nx ≡ nx }
    requires rows { area.now.ny ≡ ny }
    requires width { area.now.width ≡ 1 }
    requires shape { IsShape nx ny 1 }
    requires areas { AreAirAreas area.now }
    ensures { IfOk result (λ faces. AreEastward area.now faces.items) }
{
    let in_row = nx + 1;
    let mut faces = Vec::with_capacity(alloc, (in_row * ny) as usize)?;
    for n in 0..in_row * ny {
        let i = (n % in_row) as usize;
        let row = area.row(n / in_row + 1);
        faces.push(divisor_of(row[i], row[i + 1]))?;
    }
    Ok(faces)
}

/// The divisors of the faces of a piece that are crossed from lower to higher `j`, row by row.
pub(crate) fn northward_faces(
    alloc: Global,
    area: &Field,
    nx: u32,
    ny: u32,
) -> Result<Vec<FaceDivisor>, AllocError>
    requires columns { area.now.nx ≡ nx }
    requires rows { area.now.ny ≡ ny }
    requires width { area.now.width ≡ 1 }
    requires shape { IsShape nx ny 1 }
    requires areas { AreAirAreas area.now }
    ensures { IfOk result (λ faces. AreNorthward area.now faces.items) }
{
    let mut faces = Vec::with_capacity(alloc, (nx * (ny + 1)) as usize)?;
    for n in 0..nx * (ny + 1) {
        let column = (n % nx + 1) as usize;
        let south = area.row(n / nx);
        let north = area.row(n / nx + 1);
        faces.push(divisor_of(south[column], north[column]))?;
    }
    Ok(faces)
}
