// The sides of a cell.
ghost use Rattle.std.specs.Prelude.{◌≡◌};
ghost use Rattle.cpl_faces.specs.Faces.{rank};

use cpl_mosaic::Side;

/// The place of a side of a cell in the order W, E, S, N: 0 to 3. The order is defined by this project.
pub fn rank(side: Side) -> u32
    ensures { result ≡ rank side }
{
    match side {
        Side::W => 0,
        Side::E => 1,
        Side::S => 2,
        Side::N => 3,
    }
}
