// What crosses between the pieces of the air and those of the surface.
ghost use Rattle.std.specs.Prelude.{◌≡◌, ◌<◌, ◌≤ℤ◌, [], length, map, pos, IfOk, slice_index, slice_index_or};
ghost use Rattle.cpl_fixed.specs.declared.limits.TheConstants.{PARTS};
ghost use Rattle.cpl_fixed.specs.Totals.{total_of};
ghost use Rattle.cpl_fixed.specs.Shares.{CanShare, shares_of};
ghost use Rattle.cpl_xgrid.specs.Grids.{IsGrid};
ghost use Rattle.cpl_xput.specs.Sums.{ArePlaces, SumsFit, copied, sums_of};
ghost use Rattle.cpl_xput.specs.Exchanges.{AreLayouts, exchange_of, surface_of, weight, weights_of};
ghost use Rattle.cpl_xput.specs.Laws.{IsExchange};
ghost use Rattle.cpl_xgrid.specs.Indexes.{for_cells};
ghost use Rattle.cpl_xgrid.specs.Rules.{tiles_of};

use crate::elements::elements_of;
use crate::pieces::for_pieces;
use crate::shares::share_out;
use crate::sums::{add_values, copy_values};
use cpl_fixed::MOST_TOTAL;
use cpl_layout::Layout;
use cpl_xgrid::{Grid, Groups, Outlet, Surface, air_cells, by_cell, land_cells, other_cells};
use std::alloc::{AllocError, Global};
use std::marker::Model;

/// The exchange cells of each piece, in element order: the land list, then the ocean list, each in the order of the file.
/// Contracts see the places of their cells in the piece, row by row, how many elements each cell of the air has, and the weights
/// of the outlets of each cell of the land.
#[derive(Drop)]
pub struct XPut {
    air: Groups<u32>,
    land: Groups<u32>,
    ocean: Groups<u32>,
    elements: Vec<u32>,
    weights: Groups<i64>,
}

impl Model for XPut {
    ghost use Rattle.cpl_xput.specs.Exchanges.{Exchange};

    ghost Value = { Exchange };

    ghost view = { λ a. record { air = a.air; land = a.land; ocean = a.ocean; elements = a.elements.items; weights = a.weights } };
}

// The weights of outlets.
fn weights_of(alloc: Global, outlets: &[Outlet]) -> Result<Vec<i64>, AllocError>
    ensures { IfOk result (λ weights. weights.items ≡ map weight outlets.now) }
{
    outlets.iter().map(|outlet| outlet.weight).collect(alloc)
}

// The weights of the outlets of each cell of the land.
fn drains_of(alloc: Global, grid: &Grid) -> Result<Groups<i64>, AllocError>
    requires { IsGrid grid.now }
    ensures { IfOk result (λ groups. groups ≡ for_cells (tiles_of grid.now.land) (weights_of grid.now.xgrid.outlets)) }
{
    let outlets = grid.xgrid.outlets();
    let cells = land_cells(alloc, outlets)?;
    let weights = weights_of(alloc, outlets)?;
    let groups = by_cell(alloc, &grid.land.mosaic, &cells)?;
    groups.pick(alloc, &weights, 0)
}

impl XPut {
    /// Finds the exchange cells of each piece of three layouts of a grid's mosaics: of the air, the land and the ocean. It
    /// takes memory for the places of the exchange cells, the numbers of elements and the weights of the outlets, and time linear
    /// in them.
    pub fn new(
        alloc: Global,
        grid: &Grid,
        air: &Layout,
        land: &Layout,
        ocean: &Layout,
    ) -> Result<XPut, AllocError>
        requires grid { IsGrid grid.now }
        requires layouts { AreLayouts grid.now air.now land.now ocean.now }
        ensures exchange { IfOk result (λ xput. xput ≡ exchange_of grid.now air.now land.now ocean.now) }
        ensures law { IfOk result (IsExchange grid.now air.now land.now ocean.now) }
    {
        let lands = grid.xgrid.rows(Surface::Land);
        let oceans = grid.xgrid.rows(Surface::Ocean);
        let of_air = air_cells(alloc, lands, oceans)?;
        let of_land = other_cells(alloc, lands)?;
        let of_ocean = other_cells(alloc, oceans)?;
        Ok(XPut {
            air: for_pieces(alloc, air, &of_air)?,
            land: for_pieces(alloc, land, &of_land)?,
            ocean: for_pieces(alloc, ocean, &of_ocean)?,
            elements: elements_of(alloc, grid)?,
            weights: drains_of(alloc, grid)?,
        })
    }

    /// Divides the area of an exchange cell over the parts of its cell of the ocean, open water and the categories of ice,
    /// which sum to 65,536: each part has its share.
    pub fn parts(area: i64, parts: &[i64], b: &mut [i64])
        requires can { CanShare area parts.now }
        requires whole { total_of parts.now ≡ PARTS }
        requires room { length b.old ≡ length parts.now }
        ensures { b.new ≡ shares_of area parts.now }
    {
        share_out(area, parts, b);
    }

    /// The places of the exchange cells of a piece of the air, in element order.
    pub fn air_places(&self, piece: u32) -> &[u32]
        requires { piece < length self.now.air }
        ensures { result.now ≡ slice_index_or self.now.air piece [] }
    {
        self.air.at(piece)
    }

    /// The places of the exchange cells of a piece of a surface, in the order of the file.
    pub fn surface_places(&self, surface: Surface, piece: u32) -> &[u32]
        requires { piece < length (surface_of self.now surface) }
        ensures { result.now ≡ slice_index_or (surface_of self.now surface) piece [] }
    {
        match surface {
            Surface::Land => self.land.at(piece),
            Surface::Ocean => self.ocean.at(piece),
        }
    }

    /// The weights of the outlets of a cell of the land, by its number in whole order, in the order of the file.
    pub fn weights(&self, cell: u32) -> &[i64]
        requires { cell < length self.now.weights }
        ensures { result.now ≡ slice_index_or self.now.weights cell [] }
    {
        self.weights.at(cell)
    }

    /// Copies the values of the cells of a piece of the air, row by row, to its exchange cells.
    pub fn put(&self, piece: u32, values: &[i64], to: &mut [i64])
        requires piece { piece < length self.now.air }
        requires values { ArePlaces (length values.now) (slice_index_or self.now.air piece []) }
        requires room { length to.old ≡ length (slice_index_or self.now.air piece []) }
        ensures { to.new ≡ copied (slice_index_or self.now.air piece []) values.now }
    {
        copy_values(self.air_places(piece), values, to);
    }

    /// Adds the values of the exchange cells of a piece of a surface up, and writes the sum of each of its cells, row by row.
    /// A cell with no exchange cell has the sum 0. The sums fit 64 bits, and so do those of a cell's first values.
    pub fn get(&self, surface: Surface, piece: u32, rows: &[i64], to: &mut [i64])
        requires piece { piece < length (surface_of self.now surface) }
        requires places { ArePlaces (length to.old) (slice_index_or (surface_of self.now surface) piece []) }
        requires rows { length rows.now ≡ length (slice_index_or (surface_of self.now surface) piece []) }
        requires sums { SumsFit (slice_index_or (surface_of self.now surface) piece []) rows.now }
        ensures { to.new ≡ sums_of (length to.old) (slice_index_or (surface_of self.now surface) piece []) rows.now }
    {
        add_values(self.surface_places(surface, piece), rows, to);
    }

    /// How many elements a cell of the air has, by its number in whole order: one for each exchange cell of the land list, and for
    /// each of the ocean list one for open water and one for each category of ice.
    pub fn elements(&self, cell: u32) -> u32
        requires { cell < length self.now.elements }
        ensures { result ≡ slice_index self.now.elements cell }
    {
        self.elements[cell as usize]
    }

    /// Divides an amount of a cell of the air, by its number in whole order, over its elements by weights, one for each, in
    /// element order: each has its share. The weights are 0 or above and sum to 1 to 2^62 - 1.
    pub fn split(&self, _cell: u32, amount: i64, weights: &[i64], to: &mut [i64])
        requires cell { _cell < length self.now.elements }
        requires elements { length weights.now ≡ slice_index self.now.elements _cell }
        requires can { CanShare amount weights.now }
        requires most { total_of weights.now ≤ℤ pos MOST_TOTAL }
        requires room { length to.old ≡ length weights.now }
        ensures { to.new ≡ shares_of amount weights.now }
    {
        share_out(amount, weights, to);
    }

    /// Divides an amount of a cell of the land, by its number in whole order, over its outlets in the order of the file: each
    /// has its share by the weights. The cell has an outlet.
    pub fn drain(&self, cell: u32, amount: i64, to: &mut [i64])
        requires cell { cell < length self.now.weights }
        requires can { CanShare amount (slice_index_or self.now.weights cell []) }
        requires most { total_of (slice_index_or self.now.weights cell []) ≤ℤ pos MOST_TOTAL }
        requires room { length to.old ≡ length (slice_index_or self.now.weights cell []) }
        ensures { to.new ≡ shares_of amount (slice_index_or self.now.weights cell []) }
    {
        share_out(amount, self.weights(cell), to);
    }
}
