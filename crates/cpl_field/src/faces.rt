// The numbers of the faces of a piece.
ghost use Rattle.std.specs.Prelude.{◌≡◌, ◌+◌, ◌*◌, ◌-◌, ◌<◌, ◌≤◌, pos, ◌-ℤ◌, IfOk, IfSome, slice_set};
ghost use Rattle.cpl_layout.specs.Owners.{IsPiece};
ghost use Rattle.cpl_field.specs.Crossings.{SideAt, IsSideOf, IsFaceNumber, SetsSide, eastward_at, inner_mate, northward_at, outward_at};

use cpl_layout::Piece;
use cpl_mosaic::Side;
use std::alloc::{AllocError, Global};
use std::marker::Model;

/// One number for each face of a piece's cells, from -2^40 to 2^40, seen from either side: outward from a side of a cell it
/// is the negative of what it is outward from the side that meets it. A side on the piece's edge has a number of its own.
///
/// What crosses a face is kept once, toward higher `i` or higher `j`.
#[derive(Drop)]
pub struct Faces {
    nx: u32,
    ny: u32,
    eastward: Vec<i64>,
    northward: Vec<i64>,
}

impl Model for Faces {
    ghost use Rattle.cpl_field.specs.Crossings.{FaceNumbers, AreFaces};

    ghost Value = { FaceNumbers };

    ghost view = { λ a. record { nx = a.nx; ny = a.ny; eastward = a.eastward.items; northward = a.northward.items } };

    ghost invariant = { λ a. AreFaces (record { nx = a.nx; ny = a.ny; eastward = a.eastward.items; northward = a.northward.items }) };
}

// The place of a face in the list of those of its direction, of which a row has so many.
fn place(in_row: u32, i: u32, j: u32) -> usize
    requires in_row { in_row ≤ 1025 }
    requires column { i < in_row }
    requires row { j < 1025 }
    ensures { result ≡ j * in_row + i }
{
    (j * in_row + i) as usize
}

impl Faces {
    /// The faces of a piece, each with the number 0.
    pub fn new(alloc: Global, piece: &Piece) -> Result<Faces, AllocError>
        requires { IsPiece piece.now }
        ensures columns { IfOk result (λ faces. faces.nx ≡ piece.now.nx) }
        ensures rows { IfOk result (λ faces. faces.ny ≡ piece.now.ny) }
        ensures zeros { IfOk result (λ faces. (a : SideAt) → outward_at faces a ≡ pos 0) }
    {
        let eastward = (piece.nx + 1) * piece.ny;
        let northward = piece.nx * (piece.ny + 1);
        Ok(Faces {
            nx: piece.nx,
            ny: piece.ny,
            eastward: vec![in alloc; 0; eastward as usize]?,
            northward: vec![in alloc; 0; northward as usize]?,
        })
    }

    /// What crosses a side of a cell outward. What crosses the side that meets it in the piece is the negative.
    pub fn side(&self, i: u32, j: u32, side: Side) -> i64
        requires { IsSideOf self.now (record { i = i; j = j; side = side }) }
        ensures value { result ≡ outward_at self.now (record { i = i; j = j; side = side }) }
        ensures range { IsFaceNumber result }
        ensures mate { IfSome (inner_mate self.now (record { i = i; j = j; side = side })) (λ mate. outward_at self.now mate ≡ pos 0 -ℤ result) }
    {
        match side {
            Side::W => -self.eastward[place(self.nx + 1, i, j)],
            Side::E => self.eastward[place(self.nx + 1, i + 1, j)],
            Side::S => -self.northward[place(self.nx, i, j)],
            Side::N => self.northward[place(self.nx, i, j + 1)],
        }
    }

    /// Sets what crosses a side of a cell outward, and with it what crosses the side that meets it in the piece.
    pub fn set_side(&mut self, i: u32, j: u32, side: Side, x: i64)
        requires side { IsSideOf self.old (record { i = i; j = j; side = side }) }
        requires range { IsFaceNumber x }
        ensures { SetsSide self.old self.new (record { i = i; j = j; side = side }) x }
    {
        match side {
            Side::W => self.eastward[place(self.nx + 1, i, j)] = -x,
            Side::E => self.eastward[place(self.nx + 1, i + 1, j)] = x,
            Side::S => self.northward[place(self.nx, i, j)] = -x,
            Side::N => self.northward[place(self.nx, i, j + 1)] = x,
        }
    }

    /// Sets what crosses the face west of column `i` in row `j` eastward. East of the last column is that of one column more.
    pub fn set_eastward(&mut self, i: u32, j: u32, x: i64)
        requires column { i ≤ self.old.nx }
        requires row { j < self.old.ny }
        requires range { IsFaceNumber x }
        ensures there { eastward_at self.new i j ≡ x }
        ensures list { self.new ≡ record self.old { eastward = slice_set self.old.eastward (j * (self.old.nx + 1) + i) x } }
    {
        self.eastward[place(self.nx + 1, i, j)] = x;
    }

    /// Sets what crosses the face south of row `j` in column `i` northward. North of the last row is that of one row more.
    pub fn set_northward(&mut self, i: u32, j: u32, x: i64)
        requires column { i < self.old.nx }
        requires row { j ≤ self.old.ny }
        requires range { IsFaceNumber x }
        ensures there { northward_at self.new i j ≡ x }
        ensures list { self.new ≡ record self.old { northward = slice_set self.old.northward (j * self.old.nx + i) x } }
    {
        self.northward[place(self.nx, i, j)] = x;
    }
}
