// A layout of pieces.
ghost use Rattle.std.specs.Prelude.{◌≡◌, ◌<◌, ◌≤◌, None, IfOk, OnOk, IfErr, position};
ghost use Rattle.cpl_mosaic.specs.Sides.{IsCellOf};
ghost use Rattle.cpl_layout.specs.Layouts.{IsLayout, layout_fault, is_too_fine, IsFirstFault};
ghost use Rattle.cpl_layout.specs.Pieces.{pieces_of, piece_of, owner_of};
ghost use Rattle.cpl_layout.specs.Owners.{Holds, IsPieceOf, OwnersAgree};

use crate::Piece;
use crate::extents::{extent, part_of};
use cpl_fixed::{LayoutError, MOST_PIECES};
use cpl_mosaic::{CellId, Mosaic, Tile};
use std::alloc::Global;
use std::marker::Model;

/// The tiles of a mosaic, each cut into `px` by `py` pieces. Contracts see the tiles and the two numbers.
///
/// Pieces are numbered from 0: by tile, then row, then column. Each cell lies in exactly one, its owner.
#[derive(Drop)]
pub struct Layout {
    tiles: Vec<Tile>,
    px: u32,
    py: u32,
}

impl Model for Layout {
    ghost use Rattle.cpl_layout.specs.Layouts.{Cuts, IsLayout};

    ghost Value = { Cuts };

    ghost view = { λ a. record { tiles = a.tiles.items; px = a.px; py = a.py } };

    ghost invariant = { λ a. IsLayout (record { tiles = a.tiles.items; px = a.px; py = a.py }) };
}

// The first tile with fewer columns or rows of cells than of pieces.
fn first_too_fine(tiles: &[Tile], px: u32, py: u32) -> Option<usize>
    ensures { result ≡ position (is_too_fine px py) tiles.now }
{
    tiles.iter().position(|tile| tile.nx < px || tile.ny < py)
}

impl Layout {
    /// Cuts each tile of a mosaic into `px` columns and `py` rows of pieces, 1 to 64 each. It takes memory for the tiles.
    ///
    /// More than 64 pieces are refused with their number, and else a tile with fewer columns than `px` or fewer rows than
    /// `py`, the first one.
    pub fn new(alloc: Global, mosaic: &Mosaic, px: u32, py: u32) -> Result<Layout, LayoutError>
        requires columns { (1 ≤ px) × (px ≤ 64) }
        requires rows { (1 ≤ py) × (py ≤ 64) }
        ensures layout { IfOk result (λ layout. layout ≡ record { tiles = mosaic.now.tiles; px = px; py = py }) }
        ensures fits { OnOk result (layout_fault mosaic.now.tiles px py ≡ None) }
        ensures fault { IfErr result (IsFirstFault (layout_fault mosaic.now.tiles px py)) }
    {
        // The contract of `cells` has the limits of the tiles.
        let _cells = mosaic.cells();
        let tiles = mosaic.tiles();
        let count = tiles.len() as u32 * px * py;
        if count > MOST_PIECES {
            return Err(LayoutError::TooManyPieces(count));
        }
        if let Some(t) = first_too_fine(tiles, px, py) {
            return Err(LayoutError::TooFine(t as u32));
        }
        match Vec::from_slice(alloc, tiles) {
            Ok(tiles) => Ok(Layout { tiles, px, py }),
            Err(_) => Err(LayoutError::Memory),
        }
    }

    /// How many pieces there are, 1 to 64.
    pub fn pieces(&self) -> u32
        ensures count { result ≡ pieces_of self.now }
        ensures rules { IsLayout self.now }
        ensures owners { OwnersAgree self.now }
    {
        self.tiles.len() as u32 * self.px * self.py
    }

    /// The p-th piece.
    pub fn piece(&self, p: u32) -> Piece
        requires { p < pieces_of self.now }
        ensures piece { result ≡ piece_of self.now p }
        ensures inside { IsPieceOf self.now.tiles result }
    {
        let (row, column) = (p / self.px % self.py, p % self.px);
        let t = p / self.px / self.py;
        let tile = self.tiles[t as usize];
        let (i0, nx) = extent(tile.nx, self.px, column);
        let (j0, ny) = extent(tile.ny, self.py, row);
        Piece {
            tile: t,
            i0,
            nx,
            j0,
            ny,
        }
    }

    /// The piece that a cell lies in. It takes constant time.
    pub fn owner(&self, cell: CellId) -> u32
        requires { IsCellOf self.now.tiles cell }
        ensures owner { result ≡ owner_of self.now cell }
        ensures within { result < pieces_of self.now }
        ensures holds { Holds (piece_of self.now result) cell }
    {
        let tile = self.tiles[cell.tile as usize];
        let row = part_of(tile.ny, self.py, cell.j);
        let column = part_of(tile.nx, self.px, cell.i);
        (cell.tile * self.py + row) * self.px + column
    }
}
