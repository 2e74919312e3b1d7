// Runs that go on.
ghost use Rattle.std.specs.Prelude.{◌≡◌, ◌-◌, ◌≤◌, None};
ghost use Rattle.cpl_state.specs.States.{IsWhole};
ghost use Rattle.cpl_state.specs.CouplingStep.{state_after};
ghost use Rattle.cpl_plan.specs.Faults.{plan_fault};
ghost use Rattle.cpl_plan.specs.Plans.{IsPlan};
ghost use Rattle.cpl_whole.specs.Journeys.{rest_of};

use crate::ground::ground_of;
use cpl_plan::Plan;

/// A run may stop after any of its coupling steps and go on from the state there: that is a lawful state of the grid; the rest of the
/// run, started from it, breaks no rule of plans; and its last state is that of the whole run. It takes no memory.
pub fn restart_law(plan: &Plan, a: u32)
    requires { a ≤ plan.now.names.steps }
    ensures lawful { IsWhole plan.now.grid (state_after a plan.now.grid plan.now.names plan.now.start) }
    ensures rules { plan_fault plan.now.grid (rest_of a plan.now.names) (state_after a plan.now.grid plan.now.names plan.now.start) ≡ None }
    ensures plan { IsPlan (record { grid = plan.now.grid; names = rest_of a plan.now.names; start = state_after a plan.now.grid plan.now.names plan.now.start }) }
    ensures last { state_after (plan.now.names.steps - a) plan.now.grid (rest_of a plan.now.names) (state_after a plan.now.grid plan.now.names plan.now.start)
        ≡ state_after plan.now.names.steps plan.now.grid plan.now.names plan.now.start }
{
    ground_of(plan.grid());
}
