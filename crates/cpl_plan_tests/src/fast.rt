// A fast step of a column, after the ice took the flight to it.
ghost use Rattle.std.specs.Prelude.{◌≡◌, IfOk, OnOk, Ok, length};
ghost use Rattle.cpl_state.specs.CouplingStep.{before, month_of, taken};
ghost use Rattle.cpl_state.specs.FastLaws.{CanStep};
ghost use Rattle.cpl_restart.specs.RestartBytes.{whole_of};
ghost use Rattle.cpl_state.specs.States.{IsWhole};
ghost use Rattle.cpl_slow.specs.Rooms.{CanTake};
ghost use Rattle.cpl_xgrid.specs.Grids.{IsGrid};

use crate::parts::{Start, restart};
use crate::step::{column_plan, go, read};
use cpl_fixed::List;
use cpl_plan::Plan;
use cpl_slow::take_flights;
use cpl_state::{Mid, Whole};
use cpl_whole::{FastTally, fast_step};
use cpl_xgrid::Grid;
use std::alloc::{AllocError, Global};
use std::test::Fail;

// A number for each of so many cells.
fn zeros(alloc: Global, cells: usize) -> Result<List<i64>, AllocError>
    ensures { IfOk result (λ list. length list ≡ cells) }
{
    Ok(List::from_vec(vec![in alloc; 0; cells]?))
}

// A state in which the ice has taken nothing yet.
fn mid_of(alloc: Global, grid: &Grid, whole: Whole) -> Result<Mid, AllocError>
    requires grid { IsGrid grid.now }
    requires whole { IsWhole grid.now whole }
    ensures whole { IfOk result (λ mid. mid.whole ≡ whole) }
    ensures room { IfOk result (CanTake grid.now) }
{
    let cells = grid.ocean.mosaic.cells() as usize;
    Ok(Mid {
        whole,
        skin_water: zeros(alloc, cells)?,
        skin_heat: zeros(alloc, cells)?,
        skin_salt: zeros(alloc, cells)?,
        frazil_water: zeros(alloc, cells)?,
        frazil_heat: zeros(alloc, cells)?,
    })
}

// The ice takes its flight.
fn take(alloc: Global, grid: &Grid, mid: &mut Mid) -> Result<(), AllocError>
    requires grid { IsGrid grid.now }
    requires room { CanTake grid.now mid.old }
    ensures { OnOk result (mid.new ≡ taken grid.now mid.old.whole) }
{
    let mut flight = vec![in alloc; 0; 3 * grid.ocean.mosaic.cells() as usize]?;
    take_flights(grid, mid, &mut flight);
    Ok(())
}

// The start of a plan, which these bytes spell, after the ice took its flight.
fn taken_mid(alloc: Global, plan: &Plan, bytes: &[u8]) -> Result<Mid, Fail>
    requires { whole_of plan.now.grid bytes.now ≡ Ok plan.now.start }
    ensures { IfOk result (λ mid. mid ≡ taken plan.now.grid plan.now.start) }
{
    let grid = plan.grid();
    let whole = read(alloc, grid, bytes)?;
    let mut mid = mid_of(alloc, grid, whole)?;
    take(alloc, grid, &mut mid)?;
    Ok(mid)
}

// A fast step can be made from the start of a plan, which these bytes spell: the coupling step from there begins with it.
fn can_step(alloc: Global, plan: &Plan, bytes: &[u8]) -> Result<(), Fail>
    requires { whole_of plan.now.grid bytes.now ≡ Ok plan.now.start }
    ensures { OnOk result (CanStep (before plan.now.grid plan.now.names (month_of plan.now.names plan.now.start) (taken plan.now.grid plan.now.start))) }
{
    let mut whole = read(alloc, plan.grid(), bytes)?;
    go(alloc, plan, &mut whole)?;
    Ok(())
}

// The month in which a plan starts.
fn start_month(plan: &Plan) -> u32
    ensures { result ≡ month_of plan.now.names plan.now.start }
{
    plan.names().month_of(plan.start().elapsed)
}

// A fast step of a plan in the month of its start.
fn step_fast(alloc: Global, plan: &Plan, mid: &mut Mid) -> Result<FastTally, AllocError>
    requires { CanStep (before plan.now.grid plan.now.names (month_of plan.now.names plan.now.start) mid.old) }
{
    let month = start_month(plan);
    fast_step(alloc, plan.grid(), plan.names(), month, mid)
}

// What the first fast step of a plan whose start these bytes spell moved, and the state after it.
fn fast_stepped(alloc: Global, plan: &Plan, bytes: &[u8]) -> Result<(FastTally, Mid), Fail>
    requires { whole_of plan.now.grid bytes.now ≡ Ok plan.now.start }
{
    can_step(alloc, plan, bytes)?;
    let mut mid = taken_mid(alloc, plan, bytes)?;
    let tally = step_fast(alloc, plan, &mut mid)?;
    Ok((tally, mid))
}

/// What the first fast step of such a run moved, and the state of the column after it.
pub(crate) fn first_fast_step(
    alloc: Global,
    text: &str,
    start: Start,
) -> Result<(FastTally, Mid), Fail> {
    let bytes = restart(alloc, start)?;
    let plan = column_plan(alloc, text, &bytes)?;
    fast_stepped(alloc, &plan, &bytes)
}
