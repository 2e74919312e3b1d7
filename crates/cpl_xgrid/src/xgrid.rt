// An exchange grid.
ghost use Rattle.std.specs.Prelude.{◌≡◌, ◌<◌, None, IfOk, IfErr};
ghost use Rattle.cpl_xgrid.specs.Lists.{IsMesh, AreRows, AreOutlets, lists_of};
ghost use Rattle.cpl_xgrid.specs.Rules.{xgrid_fault, IsFirstFault, tiles_of};
ghost use Rattle.cpl_xgrid.specs.Rows.{rows_of, refs_of_air, refs_of_other, outlets_of};
ghost use Rattle.cpl_xgrid.specs.declared.parts.Surface.TheVariants.{Land, Ocean};
ghost use Rattle.cpl_mosaic.specs.Contacts.{cells_of};
ghost use Rattle.cpl_mosaic.specs.Cells.{cell_of};

use crate::indexes::{Indexes, indexes_of};
use crate::{Outlet, Surface, XGridError, XRef, XRow};
use cpl_mosaic::{Mesh, Tile};
use std::alloc::{AllocError, Global};
use std::marker::Model;

/// The exchange cells between the air and the land, those between the air and the ocean, and the outlets of the land (the
/// exchange grid after FMS). Contracts see the tiles of the three mosaics and the three lists.
///
/// Its lists of a cell are in element order: the land list, then the ocean list, each in the order of the file.
#[derive(Drop)]
pub struct XGrid {
    air: Vec<Tile>,
    land: Vec<Tile>,
    ocean: Vec<Tile>,
    land_rows: Vec<XRow>,
    ocean_rows: Vec<XRow>,
    outlets: Vec<Outlet>,
    indexes: Indexes,
}

impl Model for XGrid {
    ghost use Rattle.cpl_xgrid.specs.Lists.{XGridLists};
    ghost use Rattle.cpl_xgrid.specs.Indexes.{IsKept};

    ghost Value = { XGridLists };

    ghost view = { λ a. record {
      air = a.air.items;
      land = a.land.items;
      ocean = a.ocean.items;
      land_rows = a.land_rows.items;
      ocean_rows = a.ocean_rows.items;
      outlets = a.outlets.items;
    } };

    ghost invariant = { λ a. IsKept (record {
      air = a.air.items;
      land = a.land.items;
      ocean = a.ocean.items;
      land_rows = a.land_rows.items;
      ocean_rows = a.ocean_rows.items;
      outlets = a.outlets.items;
    }) a.indexes.air a.indexes.land a.indexes.ocean a.indexes.runoff };
}

// The tiles of a mesh, in memory of their own.
fn tiles_of(alloc: Global, mesh: &Mesh) -> Result<Vec<Tile>, AllocError>
    ensures { IfOk result (λ tiles. tiles.items ≡ tiles_of mesh.now) }
{
    mesh.mosaic.tiles().to_vec(alloc)
}

impl XGrid {
    /// Makes an exchange grid of its lists, of at most 2^20 exchange cells and 2^18 outlets.
    ///
    /// The first broken rule decides: rows with a cell outside its mosaic or of area 0, the land list first; the sums of the
    /// air's exchange cells, of the land's and of the ocean's; outlets; cells of the land without one. Its time is linear in
    /// rows, outlets and cells. It takes memory for the lists of each cell.
    pub fn build(
        alloc: Global,
        air: &Mesh,
        land: &Mesh,
        ocean: &Mesh,
        land_rows: Vec<XRow>,
        ocean_rows: Vec<XRow>,
        outlets: Vec<Outlet>,
    ) -> Result<XGrid, XGridError>
        requires air { IsMesh air.now }
        requires land { IsMesh land.now }
        requires ocean { IsMesh ocean.now }
        requires rows { AreRows land_rows.items ocean_rows.items }
        requires outlets { AreOutlets outlets.items }
        ensures lists { IfOk result (λ xgrid. xgrid ≡ lists_of air.now land.now ocean.now land_rows.items ocean_rows.items outlets.items) }
        ensures rules { IfOk result (λ _. xgrid_fault air.now land.now ocean.now land_rows.items ocean_rows.items outlets.items ≡ None) }
        ensures fault { IfErr result (IsFirstFault (xgrid_fault air.now land.now ocean.now land_rows.items ocean_rows.items outlets.items)) }
    {
        let indexes = indexes_of(alloc, air, land, ocean, &land_rows, &ocean_rows, &outlets)?;
        Ok(XGrid {
            air: tiles_of(alloc, air)?,
            land: tiles_of(alloc, land)?,
            ocean: tiles_of(alloc, ocean)?,
            land_rows,
            ocean_rows,
            outlets,
            indexes,
        })
    }

    /// The exchange cells of a cell of the air, by its number in whole order, in element order. It takes constant time, and so
    /// do the next three.
    pub fn cells_of_air(&self, cell: u32) -> &[XRef]
        requires { cell < cells_of self.now.air }
        ensures { result.now ≡ refs_of_air self.now.land_rows self.now.ocean_rows (cell_of self.now.air cell) }
    {
        self.indexes.air.at(cell)
    }

    /// The exchange cells of a cell of the land, in element order.
    pub fn cells_of_land(&self, cell: u32) -> &[XRef]
        requires { cell < cells_of self.now.land }
        ensures { result.now ≡ refs_of_other Land self.now.land_rows (cell_of self.now.land cell) }
    {
        self.indexes.land.at(cell)
    }

    /// The exchange cells of a cell of the ocean, in element order.
    pub fn cells_of_ocean(&self, cell: u32) -> &[XRef]
        requires { cell < cells_of self.now.ocean }
        ensures { result.now ≡ refs_of_other Ocean self.now.ocean_rows (cell_of self.now.ocean cell) }
    {
        self.indexes.ocean.at(cell)
    }

    /// The numbers of the outlets of a cell of the land, in the order of the file.
    pub fn outlets_of(&self, cell: u32) -> &[u32]
        requires { cell < cells_of self.now.land }
        ensures { result.now ≡ outlets_of self.now.outlets (cell_of self.now.land cell) }
    {
        self.indexes.runoff.at(cell)
    }

    /// The exchange cells of a list, in the order of the file.
    pub fn rows(&self, list: Surface) -> &[XRow]
        ensures { result.now ≡ rows_of self.now list }
    {
        match list {
            Surface::Land => self.land_rows.as_slice(),
            Surface::Ocean => self.ocean_rows.as_slice(),
        }
    }

    /// The outlets of the land, in the order of the file.
    pub fn outlets(&self) -> &[Outlet]
        ensures { result.now ≡ self.now.outlets }
    {
        self.outlets.as_slice()
    }
}
