// A step of all pieces.
ghost use Rattle.std.specs.Prelude.{◌≡◌, ◌<◌, ℕ, length};
ghost use Rattle.cpl_field.specs.Spots.{IsSameShape};
ghost use Rattle.cpl_atmos.specs.Sweeps.{AreAmounts};
ghost use Rattle.cpl_divided.specs.Steps.{Steps, StepsAll, ArePieces, HaveAmounts, KeepsAreas};

use cpl_atmos::AirPiece;
use cpl_field::Field;

// One piece takes a step: what it computes is stored when all of it is there.
fn step_piece(air: &mut AirPiece, x: &mut Field)
    requires shape { IsSameShape air.old.area x.old }
    requires amounts { AreAmounts x.old }
    ensures area { air.new.area ≡ air.old.area }
    ensures step { Steps air.old.area x.old x.new }
{
    air.interior(x);
    air.rim(x);
    air.finish(x);
}

/// All pieces take a step, from fields whose halos are filled. It takes no memory.
pub(crate) fn step_all(airs: &mut [AirPiece], fields: &mut [Field])
    requires airs { ArePieces airs.old fields.old }
    requires amounts { HaveAmounts fields.old }
    ensures areas { KeepsAreas airs.old airs.new }
    ensures steps { StepsAll airs.old fields.old fields.new }
{
    for p in 0..fields.len() {
        step_piece(&mut airs[p], &mut fields[p]);
    }
}
