// A coupling step of a plan.
ghost use Rattle.std.specs.Prelude.{◌≡◌, ℕ, ◌+◌, ◌<◌, OnOk, OnErr, IfOk};
ghost use Rattle.cpl_course.specs.Course.{KeepsCoupling};
ghost use Rattle.cpl_state.specs.CouplingStep.{state_after, step_after, step_entered, step_gave, step_left, step_took};
ghost use Rattle.cpl_whole.specs.Rooms.{CanCoupleOn};

use crate::coupling::couple;
use crate::ground::ground_of;
use crate::room::StepRoom;
use crate::tally::{StepTally, step_tally};
use cpl_namelist::Names;
use cpl_plan::{Plan, holdings_of};
use cpl_state::Whole;
use cpl_xgrid::Grid;
use std::alloc::{AllocError, Global};

// A coupling step, in room of its own.
fn step_on(
    alloc: Global,
    grid: &Grid,
    names: &Names,
    whole: &mut Whole,
) -> Result<StepTally, AllocError>
    requires { CanCoupleOn grid.now names.now whole.old }
    ensures value { OnOk result (whole.new ≡ step_after grid.now names.now whole.old) }
    ensures entered { IfOk result (λ tally. tally.entered ≡ step_entered grid.now names.now whole.old) }
    ensures left { IfOk result (λ tally. tally.left ≡ step_left grid.now names.now whole.old) }
    ensures gave { IfOk result (λ tally. tally.gave ≡ step_gave grid.now names.now whole.old) }
    ensures took { IfOk result (λ tally. tally.took ≡ step_took grid.now names.now whole.old) }
    ensures memory { OnErr result (whole.new ≡ whole.old) }
{
    let mut room = StepRoom::new(alloc, grid)?;
    let before = holdings_of(grid, whole);
    let moved = couple(grid, names, whole, &mut room);
    let after = holdings_of(grid, whole);
    Ok(step_tally(&moved, &before, &after))
}

/// Takes the state after `n` coupling steps of a plan to the state after one more. Where there is no memory, the state stands.
pub fn step_whole(
    alloc: Global,
    plan: &Plan,
    n: u32,
    whole: &mut Whole,
) -> Result<StepTally, AllocError>
    requires step { n < plan.now.names.steps }
    requires whole { whole.old ≡ state_after n plan.now.grid plan.now.names plan.now.start }
    ensures value { OnOk result (whole.new ≡ state_after (n + 1) plan.now.grid plan.now.names plan.now.start) }
    ensures entered { IfOk result (λ tally. tally.entered ≡ step_entered plan.now.grid plan.now.names whole.old) }
    ensures left { IfOk result (λ tally. tally.left ≡ step_left plan.now.grid plan.now.names whole.old) }
    ensures gave { IfOk result (λ tally. tally.gave ≡ step_gave plan.now.grid plan.now.names whole.old) }
    ensures took { IfOk result (λ tally. tally.took ≡ step_took plan.now.grid plan.now.names whole.old) }
    // Nothing is lost: the state after is lawful, and each exchange balances.
    ensures keeps { KeepsCoupling plan.now.grid plan.now.names whole.old }
    ensures memory { OnErr result (whole.new ≡ whole.old) }
{
    let grid = plan.grid();
    ground_of(grid);
    step_on(alloc, grid, plan.names(), whole)
}
