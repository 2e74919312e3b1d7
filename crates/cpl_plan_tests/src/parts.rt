// A world of one column, and its runs.
ghost use Rattle.std.specs.Prelude.{IfOk};
ghost use Rattle.cpl_namelist.specs.Ranges.{AreNames};
ghost use Rattle.cpl_state.specs.Diffusion.{IsAirMesh};
ghost use Rattle.cpl_state.specs.States.{IsWhole};
ghost use Rattle.cpl_xgrid.specs.Grids.{IsGrid};

use cpl_gridfile::read_grid;
use cpl_namelist::Names;
use cpl_plan::{Holdings, Plan, PlanError, holdings_of};
use cpl_restart::decode;
use cpl_state::Whole;
use cpl_xgrid::Grid;
use std::alloc::{AllocError, Global};
use std::test::Fail;

/// One cell of the air of area 16 over 4 of land and 12 of ocean, with one outlet of weight 1.
const COLUMN: &str = "grid 1 coupled
mosaic atmos 1\ntile 1 1\narea 16\ncontacts 0
mosaic land 1\ntile 1 1\narea 4\ncontacts 0
mosaic ocean 1\ntile 1 1\narea 12\ncontacts 0
column 1 1
xgrid land 1\nx 0 0 0 0 0 0 4
xgrid ocean 1\nx 0 0 0 0 0 0 12
outlets 1\no 0 0 0 0 0 0 1
end
";

/// The numbers of a start that the cases choose: its elapsed seconds, and what the ocean holds.
#[derive(Clone, Copy)]
pub(crate) struct Start {
    pub elapsed: i64,
    pub water: i64,
    pub heat: i64,
    pub salt: i64,
}

pub(crate) fn column(alloc: Global) -> Result<Grid, Fail>
    ensures grid { IfOk result IsGrid }
    ensures air { IfOk result (λ grid. IsAirMesh grid.air) }
{
    match read_grid(alloc, COLUMN.as_bytes()) {
        Ok(grid) => Ok(grid),
        Err(_) => Err("the text is a coupled grid's")?,
    }
}

pub(crate) fn names(text: &str) -> Result<Names, Fail>
    ensures { IfOk result AreNames }
{
    let bytes = text.as_bytes();
    if bytes.len() >= 4_294_967_295 {
        return Err("a shorter text")?;
    }
    match Names::read(bytes) {
        Ok(names) => Ok(names),
        Err(_) => Err("the text is a namelist")?,
    }
}

/// The restart of version 1 that has these numbers, sections with their counts one after another.
pub(crate) fn restart(alloc: Global, start: Start) -> Result<Vec<u8>, AllocError> {
    let Start {
        elapsed,
        water,
        heat,
        salt,
    } = start;
    let numbers = [
        elapsed, 1, 44_800, 1, 0, 1, 160, // the air's heat, vapour and sun
        1, 10_920, 1, 0, // the land's heat and water
        2, 65_536, 0, 1, 0, 1, 0, // parts, ice and its heat
        1, water, 1, heat, 1, salt, 0, // the ocean, without faces
        5, 0, 0, 100, 142_600, 10, // frazil's water and heat, the skin's water, heat and salt
        3, 50, 71_300, 5, // water, heat and salt that fly to the ocean
    ];
    let mut bytes = Vec::from_slice(alloc, b"CPLRST01")?;
    for number in numbers {
        bytes.extend_from_slice(&number.to_be_bytes())?;
    }
    Ok(bytes)
}

fn state(alloc: Global, grid: &Grid, start: Start) -> Result<Whole, Fail>
    requires { IsGrid grid.now }
    ensures { IfOk result (IsWhole grid.now) }
{
    let bytes = restart(alloc, start)?;
    match decode(alloc, grid, &bytes) {
        Ok(whole) => Ok(whole),
        Err(_) => Err("the bytes are a restart's")?,
    }
}

/// The fault of a run that begins so.
pub(crate) fn fault(alloc: Global, text: &str, numbers: Start) -> Result<Option<PlanError>, Fail> {
    let names = names(text)?;
    let grid = column(alloc)?;
    let whole = state(alloc, &grid, numbers)?;
    Ok(Plan::new(alloc, grid, names, whole).err())
}

/// What the start of such a run holds.
pub(crate) fn holdings(alloc: Global, numbers: Start) -> Result<Holdings, Fail> {
    let grid = column(alloc)?;
    let whole = state(alloc, &grid, numbers)?;
    Ok(holdings_of(&grid, &whole))
}
