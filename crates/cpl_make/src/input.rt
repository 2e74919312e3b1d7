// Making inputs.
ghost use Rattle.std.specs.Prelude.{◌≡◌, ◌≤◌, IfOk, Ok, length};
ghost use Rattle.cpl_fixed.specs.declared.limits.TheConstants.{MOST_STEPS, MOST_START_BYTES};
ghost use Rattle.cpl_xgrid.specs.Grids.{IsGrid};
ghost use Rattle.cpl_restart.specs.RestartBytes.{whole_of};
ghost use Rattle.cpl_restart.specs.SecondBytes.{second_bytes};
ghost use Rattle.cpl_made_grid.specs.Shares.{IsSized};
ghost use Rattle.cpl_made_grid.specs.Grids.{made_grid};
ghost use Rattle.cpl_made_grid.specs.Made.{recipe};
ghost use Rattle.cpl_make.specs.Starts.{made_start};
ghost use Rattle.cpl_make.specs.Inputs.{IsInput};

use crate::names::names_text;
use crate::start::make_start;
use cpl_gridfile::print_grid;
use cpl_made_grid::{Recipe, make_grid};
use cpl_restart::encode;
use cpl_xgrid::Grid;
use std::alloc::{AllocError, Global};

/// An input: the bytes of its three files.
#[derive(Drop)]
pub struct Made {
    /// The text of a coupled grid.
    pub grid: Vec<u8>,
    /// The text of a namelist.
    pub names: Vec<u8>,
    /// A state of the grid, as a restart of version 2.
    pub start: Vec<u8>,
}

// The bytes of the made start of a recipe, for its grid.
fn start_bytes(alloc: Global, recipe: Recipe, grid: &Grid) -> Result<Vec<u8>, AllocError>
    requires size { IsSized recipe.size }
    requires grid { grid.now ≡ made_grid recipe }
    requires lawful { IsGrid grid.now }
    ensures spelled { IfOk result (λ bytes. bytes.items ≡ second_bytes (made_start recipe)) }
    ensures limit { IfOk result (λ bytes. length bytes.items ≤ MOST_START_BYTES) }
    ensures back { IfOk result (λ bytes. whole_of (made_grid recipe) bytes.items ≡ Ok (made_start recipe)) }
{
    let start = make_start(alloc, recipe, grid)?;
    let bytes = encode(alloc, grid, &start)?;
    Ok(bytes)
}

/// The files of a recipe, whose grid is made already, for a run of this many coupling steps, 0 to 10,000. It has no refusal but want
/// of memory.
pub fn make_files(
    alloc: Global,
    recipe: Recipe,
    grid: &Grid,
    steps: u32,
) -> Result<Made, AllocError>
    requires size { IsSized recipe.size }
    requires grid { grid.now ≡ made_grid recipe }
    requires steps { steps ≤ MOST_STEPS }
    ensures { IfOk result (IsInput recipe steps) }
{
    Ok(Made {
        grid: print_grid(alloc, grid)?,
        names: names_text(alloc, steps)?,
        start: start_bytes(alloc, recipe, grid)?,
    })
}

/// The input of a number, of a size from 1 to 64, for a run of this many coupling steps, 0 to 10,000. It has no refusal but want of
/// memory: the grid keeps all rules, the start is a state of it, and no rule of layouts, date and budget is broken.
///
/// The input is defined by this project. It takes time linear in the cells.
pub fn make(alloc: Global, number: u64, size: u32, steps: u32) -> Result<Made, AllocError>
    requires size { IsSized size }
    requires steps { steps ≤ MOST_STEPS }
    ensures { IfOk result (IsInput (recipe number size) steps) }
{
    let recipe = Recipe { number, size };
    let grid = make_grid(alloc, recipe)?;
    make_files(alloc, recipe, &grid, steps)
}
