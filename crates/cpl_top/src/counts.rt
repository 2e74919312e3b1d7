// What a grid has, and the lines that tell it.
ghost use Rattle.std.specs.Prelude.{◌≡◌, IfOk, string_bytes};
ghost use Rattle.cpl_xgrid.specs.Grids.{IsGrid};
ghost use Rattle.cpl_top.specs.Counts.{air_counts, coupled_counts, counts_line, done_line};

use cpl_mosaic::Mesh;
use cpl_xgrid::{Grid, Surface};
use std::alloc::{AllocError, Global};

/// Whether a grid is for the air alone.
#[derive(Clone, Copy)]
pub(crate) enum Kind {
    Air,
    Coupled,
}

/// What a grid has: the cells of its three mosaics, the exchange cells of both lists, and the outlets.
#[derive(Clone, Copy)]
pub(crate) struct Counts {
    pub(crate) kind: Kind,
    pub(crate) air: u32,
    pub(crate) land: u32,
    pub(crate) ocean: u32,
    pub(crate) exchange: u32,
    pub(crate) outlets: u32,
}

/// What a grid for the air alone has.
pub(crate) fn count_air(mesh: &Mesh) -> Counts
    ensures { result ≡ air_counts mesh.now }
{
    Counts {
        kind: Kind::Air,
        air: mesh.mosaic.cells(),
        land: 0,
        ocean: 0,
        exchange: 0,
        outlets: 0,
    }
}

/// What a coupled grid has.
pub(crate) fn count_coupled(grid: &Grid) -> Counts
    requires { IsGrid grid.now }
    ensures { result ≡ coupled_counts grid.now }
{
    let land_rows = grid.xgrid.rows(Surface::Land).len();
    let ocean_rows = grid.xgrid.rows(Surface::Ocean).len();
    Counts {
        kind: Kind::Coupled,
        air: grid.air.mosaic.cells(),
        land: grid.land.mosaic.cells(),
        ocean: grid.ocean.mosaic.cells(),
        exchange: (land_rows + ocean_rows) as u32,
        outlets: grid.xgrid.outlets().len() as u32,
    }
}

/// What is printed after these words of what a grid has: the cells of its mosaics, its exchange cells and its outlets.
pub(crate) fn counts_line(alloc: Global, words: &str, counts: &Counts) -> Result<String, AllocError>
    ensures { IfOk result (λ line. string_bytes line ≡ counts_line words.now counts.now) }
{
    let Counts {
        kind: _,
        air,
        land,
        ocean,
        exchange,
        outlets,
    } = *counts;
    format!(in alloc; "{words} {air} {land} {ocean} {exchange} {outlets}\n")
}

/// The line of a run that is done: its steps, and the cells and exchange cells of its grid.
pub(crate) fn done_line(
    alloc: Global,
    steps: u32,
    cells: u64,
    exchange: u32,
) -> Result<String, AllocError>
    ensures { IfOk result (λ line. string_bytes line ≡ done_line steps cells exchange) }
{
    format!(in alloc; "done {steps} {cells} {exchange}\n")
}
