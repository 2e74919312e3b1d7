// A mosaic of tiles.
ghost use Rattle.std.specs.Prelude.{◌≡◌, ◌-◌, ◌^◌, ◌<◌, ◌≤◌, Some, None, length, IfOk, IfErr, IfSome, MatchOption};
ghost use Rattle.cpl_mosaic.specs.Sides.{IsCellOf};
ghost use Rattle.cpl_mosaic.specs.Contacts.{AreTiles, IsMosaic, IsFirstFault, contact_fault, cells_of};
ghost use Rattle.cpl_mosaic.specs.Mates.{MatesAgree, Meets, IsWall, mate_of, walk_of};
ghost use Rattle.cpl_mosaic.specs.Cells.{NumbersAgree, number_of, cell_of};

use crate::cells::cell_of;
use crate::contacts::{check_ranges, check_self_meetings};
use crate::offsets::{TileOffset, offsets_of, place};
use crate::sides::{neighbour, opposite};
use crate::table::joined_table;
use crate::{CellId, Contact, MosaicError, Side, Tile};
use cpl_fixed::{List, MOST_CONTACTS};
use std::alloc::Global;
use std::marker::Model;

/// Tiles joined by contacts (after FMS). Contracts see the two lists.
///
/// Cells are numbered from 0 in whole order: by tile, then row `j`, then column `i`. Inside a tile neighbours meet by index
/// arithmetic. A table has an entry for each side along an edge of a tile: the side that a contact joins to it.
#[derive(Drop)]
pub struct Mosaic {
    tiles: Vec<Tile>,
    contacts: Vec<Contact>,
    offsets: Vec<TileOffset>,
    table: Vec<Option<(CellId, Side)>>,
}

impl Model for Mosaic {
    ghost use Rattle.cpl_mosaic.specs.Lists.{MosaicLists};
    ghost use Rattle.cpl_mosaic.specs.Table.{IsKept};

    ghost Value = { MosaicLists };

    ghost view = { λ a. record { tiles = a.tiles.items; contacts = a.contacts.items } };

    ghost invariant = { λ a. IsKept a.tiles.items a.contacts.items a.offsets.items a.table.items };
}

/// A mosaic with the area of each of its cells, in whole order: 0 to 2^40 each, and above 0 for the air.
#[derive(Drop)]
pub struct Mesh {
    pub mosaic: Mosaic,
    pub area: List<i64>,
}

impl Mosaic {
    /// Joins tiles by contacts. The tiles are within the limits: 1 to 16, of at most 2^18 cells together.
    ///
    /// The first broken rule decides: all contacts are judged by their ranges, then all by joining no side twice, then all
    /// by joining no side to itself. Its time is linear in the sides along the tiles' edges and those that the contacts
    /// join. It takes memory for the two lists, the table and an offset for each tile.
    pub fn new(alloc: Global, tiles: &[Tile], contacts: &[Contact]) -> Result<Mosaic, MosaicError>
        requires sizes { AreTiles tiles.now }
        requires few { length contacts.now ≤ MOST_CONTACTS }
        ensures tiles { IfOk result (λ mosaic. mosaic.tiles ≡ tiles.now) }
        ensures contacts { IfOk result (λ mosaic. mosaic.contacts ≡ contacts.now) }
        ensures rules { IfOk result (λ mosaic. contact_fault tiles.now contacts.now ≡ None) }
        ensures fault { IfErr result (IsFirstFault (contact_fault tiles.now contacts.now)) }
    {
        check_ranges(tiles, contacts)?;
        let offsets = offsets_of(alloc, tiles)?;
        let table = joined_table(alloc, tiles, &offsets, contacts)?;
        check_self_meetings(tiles, contacts)?;
        Ok(Mosaic {
            tiles: tiles.to_vec(alloc)?,
            contacts: contacts.to_vec(alloc)?,
            offsets,
            table,
        })
    }

    /// The side that a side of a cell meets, with the cell that it is of. None exactly at a wall. It takes constant time, and
    /// so does each step of a walk.
    pub fn mate(&self, cell: CellId, side: Side) -> Option<(CellId, Side)>
        requires { IsCellOf self.now.tiles cell }
        ensures mate { result ≡ mate_of self.now (cell, side) }
        ensures meets { MatchOption result (IsWall self.now (cell, side)) (Meets self.now (cell, side)) }
        ensures inside { IfSome result (λ met. IsCellOf self.now.tiles met.0) }
    {
        match neighbour(self.tiles[cell.tile as usize], cell, side) {
            Some(cell) => Some((cell, opposite(side))),
            None => self.table[place(&self.tiles, &self.offsets, cell, side)],
        }
    }

    /// The cell that `n` steps through a side lead to, with the side through which it is entered. The first step is the mate,
    /// and each further one leaves by the side opposite the one entered. None exactly where a wall is on the way.
    pub fn walk(&self, cell: CellId, side: Side, n: u32) -> Option<(CellId, Side)>
        requires inside { IsCellOf self.now.tiles cell }
        requires steps { 1 ≤ n }
        ensures { result ≡ walk_of self.now (n - 1) (cell, side) }
    {
        let mut entered = self.mate(cell, side)?;
        for _step in 1..n {
            let (next, through) = entered;
            entered = self.mate(next, opposite(through))?;
        }
        Some(entered)
    }

    /// How many cells the mosaic has, 1 to 2^18. It keeps the rules of contacts, so its mates agree, and so do its numbers.
    pub fn cells(&self) -> u32
        ensures count { result ≡ cells_of self.now.tiles }
        ensures rules { IsMosaic self.now.tiles self.now.contacts }
        ensures mates { MatesAgree self.now }
        ensures numbers { NumbersAgree self.now.tiles }
    {
        self.offsets[self.tiles.len()].cells
    }

    /// The number of a cell in whole order.
    pub fn number(&self, cell: CellId) -> u32
        requires { IsCellOf self.now.tiles cell }
        ensures { result ≡ number_of self.now.tiles cell }
    {
        let t = cell.tile as usize;
        self.offsets[t].cells + cell.j * self.tiles[t].nx + cell.i
    }

    /// The cell of a number.
    pub fn cell(&self, number: u32) -> CellId
        requires { number < cells_of self.now.tiles }
        ensures { result ≡ cell_of self.now.tiles number }
    {
        cell_of(&self.tiles, number)
    }

    /// The tiles that the mosaic was made of.
    pub fn tiles(&self) -> &[Tile]
        ensures { result.now ≡ self.now.tiles }
    {
        self.tiles.as_slice()
    }

    /// The contacts that the mosaic was made of.
    pub fn contacts(&self) -> &[Contact]
        ensures { result.now ≡ self.now.contacts }
    {
        self.contacts.as_slice()
    }
}
