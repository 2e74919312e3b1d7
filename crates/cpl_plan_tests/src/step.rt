// A coupling step of a column's plan.
ghost use Rattle.std.specs.Prelude.{◌≡◌, IfOk, OnOk, Ok};
ghost use Rattle.cpl_course.specs.Course.{KeepsCoupling};
ghost use Rattle.cpl_namelist.specs.Ranges.{AreNames};
ghost use Rattle.cpl_state.specs.Diffusion.{IsAirMesh};
ghost use Rattle.cpl_restart.specs.RestartBytes.{whole_of};
ghost use Rattle.cpl_state.specs.States.{IsWhole};
ghost use Rattle.cpl_xgrid.specs.Grids.{IsGrid};

use crate::parts::{Start, column, names, restart};
use cpl_namelist::Names;
use cpl_plan::Plan;
use cpl_restart::decode;
use cpl_state::Whole;
use cpl_whole::{StepTally, step_whole};
use cpl_xgrid::Grid;
use std::alloc::Global;
use std::test::Fail;

// What bytes spell.
pub(crate) fn read(alloc: Global, grid: &Grid, bytes: &[u8]) -> Result<Whole, Fail>
    requires { IsGrid grid.now }
    ensures lawful { IfOk result (IsWhole grid.now) }
    ensures value { IfOk result (λ whole. whole_of grid.now bytes.now ≡ Ok whole) }
{
    match decode(alloc, grid, bytes) {
        Ok(whole) => Ok(whole),
        Err(_) => Err("the bytes are a restart's")?,
    }
}

// The plan of a run from what bytes spell.
fn plan(alloc: Global, grid: Grid, names: Names, bytes: &[u8]) -> Result<Plan, Fail>
    requires grid { IsGrid grid }
    requires air { IsAirMesh grid.air }
    requires names { AreNames names }
    ensures { IfOk result (λ plan. whole_of plan.grid bytes.now ≡ Ok plan.start) }
{
    let start = read(alloc, &grid, bytes)?;
    match Plan::new(alloc, grid, names, start) {
        Ok(plan) => Ok(plan),
        Err(_) => Err("the plan is lawful")?,
    }
}

// Takes the start of a plan one step further.
pub(crate) fn go(alloc: Global, plan: &Plan, whole: &mut Whole) -> Result<StepTally, Fail>
    requires { whole.old ≡ plan.now.start }
    ensures { OnOk result (KeepsCoupling plan.now.grid plan.now.names plan.now.start) }
{
    if plan.names().steps == 0 {
        return Err("the run has a step")?;
    }
    Ok(step_whole(alloc, plan, 0, whole)?)
}

// The state after the first step of a plan whose start these bytes spell, and what the step moved.
fn stepped(alloc: Global, plan: &Plan, bytes: &[u8]) -> Result<(StepTally, Whole), Fail>
    requires { whole_of plan.now.grid bytes.now ≡ Ok plan.now.start }
{
    let mut whole = read(alloc, plan.grid(), bytes)?;
    let tally = go(alloc, plan, &mut whole)?;
    Ok((tally, whole))
}

// The plan of the column by a namelist, from what bytes spell.
pub(crate) fn column_plan(alloc: Global, text: &str, bytes: &[u8]) -> Result<Plan, Fail>
    ensures { IfOk result (λ plan. whole_of plan.grid bytes.now ≡ Ok plan.start) }
{
    let names = names(text)?;
    let grid = column(alloc)?;
    plan(alloc, grid, names, bytes)
}

/// The state of the column after the first step of such a run, and what the step moved.
pub(crate) fn first_step(
    alloc: Global,
    text: &str,
    start: Start,
) -> Result<(StepTally, Whole), Fail> {
    let bytes = restart(alloc, start)?;
    let plan = column_plan(alloc, text, &bytes)?;
    stepped(alloc, &plan, &bytes)
}
