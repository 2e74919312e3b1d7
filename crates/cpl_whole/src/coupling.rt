// A coupling step.
ghost use Rattle.std.specs.Prelude.{◌≡◌};
ghost use Rattle.cpl_state.specs.CouplingStep.{step_after, step_arrived, step_runoff};
ghost use Rattle.cpl_state.specs.States.{land_cells, ocean_cells};
ghost use Rattle.cpl_slow.specs.Sums.{gain_sums};
ghost use Rattle.cpl_course.specs.Course.{KeepsCoupling};
ghost use Rattle.cpl_whole.specs.Rooms.{CanCoupleOn, IsStepRoom};
ghost use Rattle.cpl_whole.specs.Tallies.{all_fast_sums};

use crate::ocean::go_ocean;
use crate::room::StepRoom;
use crate::surface::go_surface;
use crate::tallies::SurfaceTally;
use cpl_namelist::Names;
use cpl_state::Whole;
use cpl_xgrid::Grid;
use std::mem;

/// A coupling step: air, land and ice go on, then the ocean, which adds what the ice gave back a step before. It takes no memory.
/// The order is defined by this project: all parts go on from the state before the step, and what flies between ice and ocean is
/// one step old (after FMS, with `concurrent = .true.`).
///
/// The tally has what crossed between air, land and ice. What the ocean gave to the ice and the ice to the ocean are the flights of
/// the state after the step; what they took of each other are those of the state before it.
pub fn couple(grid: &Grid, names: &Names, whole: &mut Whole, room: &mut StepRoom) -> SurfaceTally
    requires can { CanCoupleOn grid.now names.now whole.old }
    requires room { IsStepRoom grid.now room.old }
    ensures value { whole.new ≡ step_after grid.now names.now whole.old }
    ensures keeps { KeepsCoupling grid.now names.now whole.old }
    ensures moved { result.fast ≡ all_fast_sums grid.now names.now whole.old }
    ensures gave { result.slow.gave ≡ gain_sums (land_cells grid.now) (step_runoff grid.now names.now whole.old) }
    ensures took { result.slow.took ≡ gain_sums (ocean_cells grid.now) (step_arrived grid.now names.now whole.old) }
    ensures room { IsStepRoom grid.now room.new }
{
    mem::swap(whole, &mut room.mid.whole);
    let tally = go_surface(
        grid,
        names,
        &mut room.mid,
        &mut room.flight,
        &mut room.fast,
        &mut room.slow,
    );
    mem::swap(whole, &mut room.mid.whole);
    go_ocean(grid, names, whole, &mut room.flight, &mut room.sea);
    whole.elapsed += names.dt;
    tally
}
