// The plan of a coupled run.
ghost use Rattle.std.specs.Prelude.{◌≤◌, length};
ghost use Rattle.cpl_fixed.specs.declared.limits.TheConstants.{MOST_NAMES_BYTES};
ghost use Rattle.cpl_top.specs.Causes.{Answers};
ghost use Rattle.cpl_top.specs.Planned.{plan_of};

use crate::Status;
use crate::inputs::Inputs;
use cpl_gridfile::take_grid;
use cpl_namelist::Names;
use cpl_plan::Plan;
use cpl_restart::decode;
use std::alloc::Global;

/// The plan that a grid, a namelist and a state make. Each file's bytes are freed as soon as they are read, so that the run has the
/// memory.
pub(crate) fn plan_of(alloc: Global, inputs: Inputs) -> Result<Plan, Status>
    requires { length inputs.names.items ≤ MOST_NAMES_BYTES }
    ensures { Answers (λ plan. plan) result (plan_of inputs.grid.items inputs.names.items inputs.start.items) }
{
    let Inputs {
        grid: text,
        names: namelist,
        start: bytes,
    } = inputs;
    let grid = take_grid(alloc, text)?;
    let names = Names::read(&namelist)?;
    drop(namelist);
    let start = decode(alloc, &grid, &bytes)?;
    drop(bytes);
    Ok(Plan::new(alloc, grid, names, start)?)
}
