// The numbers of a layer's faces after a step.
ghost use Rattle.std.specs.Prelude.{◌≡◌, ◌<◌, ◌≤◌};
ghost use Rattle.cpl_field.specs.Spots.{number_at};
ghost use Rattle.cpl_ocean.specs.Sweeps.{IsBasin};
ghost use Rattle.cpl_ocean.specs.Numbers.{Drives, DrivesEast, DrivesNorth};

use crate::basin::Basin;
use crate::flows::next_number;
use cpl_field::Faces;
use cpl_mosaic::Side;
use cpl_transport::face_law;

// The faces that are crossed from lower to higher `i`, row by row: each as the cell east of it sees it, and the last of a row
// as the cell west of it does.
fn drive_eastward(basin: &Basin, slope: u32, faces: &mut Faces)
    requires slope { slope ≤ 40 }
    requires basin { IsBasin basin.now }
    requires columns { faces.old.nx ≡ basin.now.nx }
    requires rows { faces.old.ny ≡ basin.now.ny }
    ensures { DrivesEast basin.now.area (number_at basin.now.heights) slope faces.old faces.new }
{
    let (nx, area, heights) = (basin.nx, &basin.area, &basin.heights);
    for j in 0..basin.ny {
        for i in 0..nx {
            let u = next_number(area, heights, slope, faces, i, j, Side::W);
            faces.set_eastward(i, j, -u);
        }
        let u = next_number(area, heights, slope, faces, nx - 1, j, Side::E);
        faces.set_eastward(nx, j, u);
    }
}

// The faces that are crossed from lower to higher `j`, row by row: each as the cell north of it sees it, and those of the last
// row as the cell south of them does.
fn drive_northward(basin: &Basin, slope: u32, faces: &mut Faces)
    requires slope { slope ≤ 40 }
    requires basin { IsBasin basin.now }
    requires columns { faces.old.nx ≡ basin.now.nx }
    requires rows { faces.old.ny ≡ basin.now.ny }
    ensures { DrivesNorth basin.now.area (number_at basin.now.heights) slope faces.old faces.new }
{
    let (nx, ny, area, heights) = (basin.nx, basin.ny, &basin.area, &basin.heights);
    for j in 0..ny {
        for i in 0..nx {
            let u = next_number(area, heights, slope, faces, i, j, Side::S);
            faces.set_northward(i, j, -u);
        }
    }
    for i in 0..nx {
        let u = next_number(area, heights, slope, faces, i, ny - 1, Side::N);
        faces.set_northward(i, ny, u);
    }
}

/// Sets the numbers of a layer's faces to what they are after a step.
pub(crate) fn drive(basin: &Basin, slope: u32, faces: &mut Faces)
    requires slope { slope ≤ 40 }
    requires basin { IsBasin basin.now }
    requires columns { faces.old.nx ≡ basin.now.nx }
    requires rows { faces.old.ny ≡ basin.now.ny }
    ensures { Drives basin.now.area (number_at basin.now.heights) slope faces.old faces.new }
{
    // Two cells see the number of the face between them with opposite signs.
    face_law();
    drive_eastward(basin, slope, faces);
    drive_northward(basin, slope, faces);
}
