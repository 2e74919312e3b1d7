// The numbers of a piece's cells and halo.
ghost use Rattle.std.specs.Prelude.{◌≡◌, ℕ, ◌+◌, ◌*◌, ◌-◌, ◌<◌, ◌≤◌, length, pos, IfOk, slice_index_or};
ghost use Rattle.cpl_layout.specs.Owners.{IsPiece};
ghost use Rattle.cpl_field.specs.Spots.{Spot, CellAt, HoleAt, IsSpot, IsShape, IsField, Sets, SetsRow, columns_of, rows_of, column_of, row_of, stored, number_at, out_from, hole_place, stepped};

use cpl_layout::Piece;
use cpl_mosaic::Side;
use std::alloc::{AllocError, Global};
use std::marker::Model;

/// One number for each cell of a piece and for each hole of the halo around it, which is one or two cells wide. Contracts
/// see the number of each spot, a cell or a hole.
///
/// Cells are named by their column `i` and row `j` in the piece, each from 0. A hole is named by the side of the piece that
/// it lies beyond, its place along that side (by `j` along W and E, by `i` along S and N) and its depth, from 1 to the
/// width. The halo has no corners. The list has the rows with their halo one after another.
#[derive(Drop)]
pub struct Field {
    nx: u32,
    ny: u32,
    width: u32,
    numbers: Vec<i64>,
}

impl Model for Field {
    ghost use Rattle.cpl_field.specs.Spots.{FieldNumbers, IsField};

    ghost Value = { FieldNumbers };

    ghost view = { λ a. record { nx = a.nx; ny = a.ny; width = a.width; numbers = a.numbers.items } };

    ghost invariant = { λ a. IsField (record { nx = a.nx; ny = a.ny; width = a.width; numbers = a.numbers.items }) };
}

// The place in the list of a column and a row.
fn place(columns: u32, column: u32, row: u32) -> usize
    requires columns { columns ≤ 1028 }
    requires column { column < columns }
    requires row { row < 1028 }
    ensures { result ≡ row * columns + column }
{
    (row * columns + column) as usize
}

// The column and the row of a hole.
fn hole_place(nx: u32, ny: u32, width: u32, side: Side, at: u32, depth: u32) -> (u32, u32)
    requires shape { IsShape nx ny width }
    requires along { at < 1024 }
    requires some { 1 ≤ depth }
    requires depth { depth ≤ width }
    ensures { result ≡ hole_place nx ny width side at depth }
{
    match side {
        Side::W => (width - depth, width + at),
        Side::E => (width + nx + depth - 1, width + at),
        Side::S => (width + at, width - depth),
        Side::N => (width + at, width + ny + depth - 1),
    }
}

// The column and the row that lie `depth` steps out through a side.
fn step_out(column: u32, row: u32, side: Side, depth: u32) -> (u32, u32)
    requires column { (depth ≤ column) × (column ≤ 1028) }
    requires row { (depth ≤ row) × (row ≤ 1028) }
    requires depth { depth ≤ 2 }
    ensures { result ≡ stepped column row side depth }
{
    match side {
        Side::W => (column - depth, row),
        Side::E => (column + depth, row),
        Side::S => (column, row - depth),
        Side::N => (column, row + depth),
    }
}

/// Some of the numbers of a list, from a place on, as those of a piece's row in a list of all cells.
pub fn part(list: &[i64], from: usize, count: usize) -> &[i64]
    requires { from + count ≤ length list.now }
    ensures count { length result.now ≡ count }
    ensures each { (n : ℕ) → n < count → slice_index_or result.now n (pos 0) ≡ slice_index_or list.now (from + n) (pos 0) }
{
    &list[from..from + count]
}

// Puts numbers into a list, from a place on.
fn put_at(list: &mut [i64], from: usize, numbers: &[i64])
    requires { from + length numbers.now ≤ length list.old }
    ensures there { (i : ℕ) → i < length numbers.now → slice_index_or list.new (from + i) (pos 0) ≡ slice_index_or numbers.now i (pos 0) }
    ensures before { (n : ℕ) → n < from → slice_index_or list.new n (pos 0) ≡ slice_index_or list.old n (pos 0) }
    ensures after { (n : ℕ) → from + length numbers.now ≤ n → slice_index_or list.new n (pos 0) ≡ slice_index_or list.old n (pos 0) }
{
    list[from..from + numbers.len()].copy_from_slice(numbers);
}

impl Field {
    /// A field of zeros: a hole that nothing has filled holds 0.
    pub fn new(alloc: Global, piece: &Piece, width: u32) -> Result<Field, AllocError>
        requires piece { IsPiece piece.now }
        requires width { (1 ≤ width) × (width ≤ 2) }
        ensures columns { IfOk result (λ field. field.nx ≡ piece.now.nx) }
        ensures rows { IfOk result (λ field. field.ny ≡ piece.now.ny) }
        ensures width { IfOk result (λ field. field.width ≡ width) }
        ensures zeros { IfOk result (λ field. (spot : Spot) → number_at field spot ≡ pos 0) }
    {
        let numbers = (piece.nx + 2 * width) * (piece.ny + 2 * width);
        Ok(Field {
            nx: piece.nx,
            ny: piece.ny,
            width,
            numbers: vec![in alloc; 0; numbers as usize]?,
        })
    }

    /// A field of the same numbers.
    pub fn copy(&self, alloc: Global) -> Result<Field, AllocError>
        ensures { IfOk result (λ field. field ≡ self.now) }
    {
        Ok(Field {
            nx: self.nx,
            ny: self.ny,
            width: self.width,
            numbers: Vec::from_slice(alloc, &self.numbers)?,
        })
    }

    /// The number of a cell.
    pub fn get(&self, i: u32, j: u32) -> i64
        requires { IsSpot self.now (CellAt i j) }
        ensures { result ≡ number_at self.now (CellAt i j) }
    {
        let columns = self.nx + 2 * self.width;
        self.numbers[place(columns, self.width + i, self.width + j)]
    }

    /// Sets the number of a cell.
    pub fn set(&mut self, i: u32, j: u32, x: i64)
        requires { IsSpot self.old (CellAt i j) }
        ensures { Sets self.old self.new (CellAt i j) x }
    {
        let columns = self.nx + 2 * self.width;
        let there = place(columns, self.width + i, self.width + j);
        self.numbers[there] = x;
    }

    /// The number of a hole.
    pub fn halo(&self, side: Side, at: u32, depth: u32) -> i64
        requires { IsSpot self.now (HoleAt side at depth) }
        ensures { result ≡ number_at self.now (HoleAt side at depth) }
    {
        let columns = self.nx + 2 * self.width;
        let (column, row) = hole_place(self.nx, self.ny, self.width, side, at, depth);
        self.numbers[place(columns, column, row)]
    }

    /// Sets the number of a hole.
    pub fn set_halo(&mut self, side: Side, at: u32, depth: u32, x: i64)
        requires { IsSpot self.old (HoleAt side at depth) }
        ensures { Sets self.old self.new (HoleAt side at depth) x }
    {
        let columns = self.nx + 2 * self.width;
        let (column, row) = hole_place(self.nx, self.ny, self.width, side, at, depth);
        let there = place(columns, column, row);
        self.numbers[there] = x;
    }

    /// The number of what lies `depth` steps out through a side of a cell, whether it is a cell of the piece or a hole.
    pub fn at(&self, i: u32, j: u32, side: Side, depth: u32) -> i64
        requires cell { IsSpot self.now (CellAt i j) }
        requires some { 1 ≤ depth }
        requires depth { depth ≤ self.now.width }
        ensures { result ≡ number_at self.now (out_from self.now i j side depth) }
    {
        let columns = self.nx + 2 * self.width;
        let (column, row) = step_out(self.width + i, self.width + j, side, depth);
        self.numbers[place(columns, column, row)]
    }

    /// A row of numbers with those of the halo at its ends. Rows are counted from the halo's outermost, and so are the
    /// places in a row: cell `(i, j)` of a halo one cell wide is at place `i + 1` of row `j + 1`.
    pub fn row(&self, row: u32) -> &[i64]
        requires { row < rows_of self.now }
        ensures count { length result.now ≡ columns_of self.now }
        ensures each { (column : ℕ) → column < columns_of self.now → slice_index_or result.now column (pos 0) ≡ stored self.now row column }
    {
        let columns = self.nx + 2 * self.width;
        part(&self.numbers, place(columns, 0, row), columns as usize)
    }

    /// Sets the numbers of the cells of row `j`, one for each of its columns.
    pub fn set_row(&mut self, j: u32, numbers: &[i64])
        requires row { j < self.old.ny }
        requires count { length numbers.now ≡ self.old.nx }
        ensures { SetsRow self.old self.new j numbers.now }
    {
        let columns = self.nx + 2 * self.width;
        let from = place(columns, self.width, self.width + j);
        put_at(&mut self.numbers, from, numbers);
    }
}
