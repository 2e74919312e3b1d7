// Worlds, and their exchanges.
ghost use Rattle.std.specs.Prelude.{◌≡◌, IfOk, OnOk};
ghost use Rattle.cpl_layout.specs.Layouts.{IsLayout};
ghost use Rattle.cpl_namelist.specs.Ranges.{AreNames, IsLayout as IsCut};
ghost use Rattle.cpl_xgrid.specs.Grids.{IsGrid};
ghost use Rattle.cpl_wires.specs.Settings.{IsSetting};

use cpl_gridfile::read_grid;
use cpl_layout::Layout;
use cpl_made_grid::{Recipe, make_grid};
use cpl_mosaic::Mosaic;
use cpl_namelist::Names;
use cpl_wires::Exchanges;
use cpl_xgrid::Grid;
use std::alloc::{AllocError, Global};
use std::mem;
use std::test::Fail;

/// The texts of a grid and of a namelist.
pub(crate) type World = (&'static str, &'static str);

fn grid_of(alloc: Global, text: &str) -> Result<Grid, Fail>
    ensures { IfOk result IsGrid }
{
    match read_grid(alloc, text.as_bytes()) {
        Ok(grid) => Ok(grid),
        Err(_) => Err("the text is a coupled grid's")?,
    }
}

fn names_of(text: &str) -> Result<Names, Fail>
    ensures { IfOk result AreNames }
{
    let bytes = text.as_bytes();
    if bytes.len() >= 4_294_967_295 {
        return Err("a shorter text")?;
    }
    match Names::read(bytes) {
        Ok(names) => Ok(names),
        Err(_) => Err("the text is a namelist")?,
    }
}

// Whether a layout fits its mosaic.
fn fits(alloc: Global, mosaic: &Mosaic, layout: (u32, u32)) -> Result<(), Fail>
    requires { IsCut layout }
    ensures { OnOk result (IsLayout (record { tiles = mosaic.now.tiles; px = layout.0; py = layout.1 })) }
{
    match Layout::new(alloc, mosaic, layout.0, layout.1) {
        Ok(layout) => {
            let _pieces = layout.pieces();
            Ok(())
        }
        Err(_) => Err("a layout that fits")?,
    }
}

// Whether the layouts of all components fit.
fn all_fit(alloc: Global, grid: &Grid, names: &Names) -> Result<(), Fail>
    requires { AreNames names.now }
    ensures { OnOk result (IsSetting (record { grid = grid.now; names = names.now })) }
{
    let [air, land, ice, ocean] = names.layouts;
    fits(alloc, &grid.air.mosaic, air)?;
    fits(alloc, &grid.land.mosaic, land)?;
    fits(alloc, &grid.ocean.mosaic, ice)?;
    fits(alloc, &grid.ocean.mosaic, ocean)
}

/// What is asked of exchanges. They are made in one place, and not given back, since a proof of that is dear and a test's memory ends with it.
pub(crate) trait Question {
    fn holds(&self, alloc: Global, exchanges: &Exchanges) -> Result<bool, AllocError>;
}

// The exchanges of a grid and of names whose layouts fit.
fn exchanges_of(alloc: Global, grid: Grid, names: Names) -> Result<Exchanges, Fail>
    requires grid { IsGrid grid }
    requires names { AreNames names }
{
    all_fit(alloc, &grid, &names)?;
    match Exchanges::new(alloc, grid, names) {
        Ok(exchanges) => Ok(exchanges),
        Err(_) => Err("memory for exchanges")?,
    }
}

fn asked<Q: Question>(alloc: Global, grid: Grid, names: &str, question: &Q) -> Result<bool, Fail>
    requires { IsGrid grid }
{
    let names = names_of(names)?;
    let exchanges = exchanges_of(alloc, grid, names)?;
    let answer = question.holds(alloc, &exchanges);
    mem::forget(exchanges);
    match answer {
        Ok(holds) => Ok(holds),
        Err(_) => Err("memory for the question")?,
    }
}

/// Whether it holds of the exchanges of a world.
pub(crate) fn holds<Q: Question>(
    alloc: Global,
    (grid, names): World,
    question: &Q,
) -> Result<bool, Fail> {
    asked(alloc, grid_of(alloc, grid)?, names, question)
}

/// Whether it holds of the exchanges of the made grid of number 7 and size 4.
pub(crate) fn made_holds<Q: Question>(
    alloc: Global,
    names: &str,
    question: &Q,
) -> Result<bool, Fail> {
    let recipe = Recipe { number: 7, size: 4 };
    asked(alloc, make_grid(alloc, recipe)?, names, question)
}
