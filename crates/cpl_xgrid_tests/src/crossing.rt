// What crosses on a small grid, by functions that look before they ask.
ghost use Rattle.std.specs.Prelude.{◌≡◌, ◌≤◌, ◌<◌, length, IfOk, unsigned_abs};
ghost use Rattle.std.specs.Bool.{OnTrue};
ghost use Rattle.std.specs.List.{sum_by};
ghost use Rattle.cpl_fixed.specs.declared.limits.TheConstants.{MOST_TOTAL as GREATEST_TOTAL};
ghost use Rattle.cpl_xgrid.specs.Grids.{IsGrid};
ghost use Rattle.cpl_xput.specs.Exchanges.{surface_of};
ghost use Rattle.cpl_xput.specs.Laws.{IsExchange, LieInPieces};

use crate::grids::{Lists, grid};
use cpl_fixed::MOST_TOTAL;
use cpl_layout::Layout;
use cpl_mosaic::Mosaic;
use cpl_xgrid::{Grid, Surface, XGridError, XRef};
use cpl_xput::{XPut, sums_law};
use std::alloc::Global;

/// The exchange cells of a cell of the air.
pub(crate) fn of_air(grid: &Grid, cell: u32) -> &[XRef]
    requires { IsGrid grid.now }
{
    if cell < grid.air.mosaic.cells() {
        grid.xgrid.cells_of_air(cell)
    } else {
        &[]
    }
}

/// Those of a cell of the land or of the ocean.
pub(crate) fn of_surface(grid: &Grid, list: Surface, cell: u32) -> &[XRef]
    requires { IsGrid grid.now }
{
    match list {
        Surface::Land if cell < grid.land.mosaic.cells() => grid.xgrid.cells_of_land(cell),
        Surface::Ocean if cell < grid.ocean.mosaic.cells() => grid.xgrid.cells_of_ocean(cell),
        _ => &[],
    }
}

/// The outlets of a cell of the land.
pub(crate) fn outlets_of(grid: &Grid, cell: u32) -> &[u32]
    requires { IsGrid grid.now }
{
    if cell < grid.land.mosaic.cells() {
        grid.xgrid.outlets_of(cell)
    } else {
        &[]
    }
}

/// A grid, a layout of each of its mosaics, and what crosses between their pieces.
#[derive(Drop)]
pub(crate) struct Crossing {
    grid: Grid,
    air: Layout,
    land: Layout,
    ocean: Layout,
    xput: XPut,
    ghost law: { IsExchange grid air land ocean xput },
}

/// A layout of so many columns of pieces.
fn layout(alloc: Global, mosaic: &Mosaic, columns: u32) -> Result<Layout, XGridError>
    ensures { IfOk result (λ layout. layout.tiles ≡ mosaic.now.tiles) }
{
    if columns == 0 || columns > 64 {
        return Err(XGridError::Memory);
    }
    match Layout::new(alloc, mosaic, columns, 1) {
        Ok(layout) => Ok(layout),
        Err(_) => Err(XGridError::Memory),
    }
}

/// Whether the values of a list together are within the limits, each without its sign.
fn are_within(values: &[i64]) -> bool
    ensures { OnTrue result (sum_by unsigned_abs values.now ≤ GREATEST_TOTAL) }
{
    let mut sum = 0;
    for value in values {
        sum += value.unsigned_abs();
        if sum > MOST_TOTAL {
            return false;
        }
    }
    true
}

impl Crossing {
    /// What crosses on the grid of these lists: the air and the ocean in one piece each, the land in columns of pieces.
    pub(crate) fn new(
        alloc: Global,
        lists: Lists<'_>,
        columns: u32,
    ) -> Result<Crossing, XGridError> {
        let grid = grid(alloc, lists)?;
        let air = layout(alloc, &grid.air.mosaic, 1)?;
        let land = layout(alloc, &grid.land.mosaic, columns)?;
        let ocean = layout(alloc, &grid.ocean.mosaic, 1)?;
        let xput = XPut::new(alloc, &grid, &air, &land, &ocean)?;
        Ok(Crossing {
            grid,
            air,
            land,
            ocean,
            xput,
        })
    }

    /// Copies the values of the air's first piece to its exchange cells, where there are as many of each.
    pub(crate) fn put(&self, values: &[i64], to: &mut [i64]) -> bool {
        let _pieces = self.air.pieces();
        let piece = self.air.piece(0);
        if values.len() != (piece.nx * piece.ny) as usize
            || to.len() != self.xput.air_places(0).len()
        {
            return false;
        }
        self.xput.put(0, values, to);
        true
    }

    /// The number of elements of a cell of the air.
    pub(crate) fn elements(&self, cell: u32) -> u32 {
        if cell < self.grid.air.mosaic.cells() {
            self.xput.elements(cell)
        } else {
            0
        }
    }

    /// The shares of an amount over the four elements of a cell of the air.
    pub(crate) fn split(&self, cell: u32, amount: i64, weights: [i64; 4]) -> Option<[i64; 4]> {
        if cell < self.grid.air.mosaic.cells() {
            split(&self.xput, cell, amount, weights)
        } else {
            None
        }
    }

    /// The shares of an amount over the outlets of a cell of the land, where there are as many.
    pub(crate) fn drain(&self, cell: u32, amount: i64, to: &mut [i64]) -> bool {
        if cell >= self.grid.land.mosaic.cells() || amount < 0 {
            return false;
        }
        let weights = self.xput.weights(cell);
        if weights.is_empty() || to.len() != weights.len() {
            return false;
        }
        self.xput.drain(cell, amount, to);
        true
    }
}

/// The shares of an amount over four elements, where the weights are 0 to 99, and the first one is above 0.
fn split(xput: &XPut, cell: u32, amount: i64, weights: [i64; 4]) -> Option<[i64; 4]>
    requires { cell < length xput.now.elements }
{
    let [a, b, c, d] = weights;
    if xput.elements(cell) != 4 || amount < 0 {
        return None;
    }
    if a < 1 || b < 0 || c < 0 || d < 0 || a > 99 || b > 99 || c > 99 || d > 99 {
        return None;
    }
    let mut to = [0; 4];
    xput.split(cell, amount, &[a, b, c, d], &mut to);
    Some(to)
}

/// Adds the values of the exchange cells of a piece of a surface up, where there are as many, and as many sums as it has cells.
fn get(
    xput: &XPut,
    surface: Surface,
    layout: &Layout,
    piece: u32,
    rows: &[i64],
    to: &mut [i64],
) -> bool
    requires { LieInPieces layout.now (surface_of xput.now surface) }
{
    if piece >= layout.pieces() || !are_within(rows) {
        return false;
    }
    let sides = layout.piece(piece);
    if to.len() != (sides.nx * sides.ny) as usize
        || rows.len() != xput.surface_places(surface, piece).len()
    {
        return false;
    }
    sums_law();
    xput.get(surface, piece, rows, to);
    true
}

impl Crossing {
    /// The same of the land, or of the ocean.
    pub(crate) fn get(&self, surface: Surface, piece: u32, rows: &[i64], to: &mut [i64]) -> bool {
        match surface {
            Surface::Land => get(&self.xput, surface, &self.land, piece, rows, to),
            Surface::Ocean => get(&self.xput, surface, &self.ocean, piece, rows, to),
        }
    }
}
