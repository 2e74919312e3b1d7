// A step of the ocean in a piece of a row of three cells of area 1, which the tests share.
ghost use Rattle.std.specs.Prelude.{◌≡◌, length, IfOk};
ghost use Rattle.cpl_field.specs.Crossings.{IsFaceNumber};
ghost use Rattle.cpl_ocean_tests.specs.Rows.{IsFieldOf, IsLittle, IsOceanOf, IsOfRow};

use cpl_field::Field;
use cpl_layout::Piece;
use cpl_mosaic::Side;
use cpl_ocean::OceanPiece;
use cpl_samples::example_rates;
use std::alloc::{AllocError, Global};

/// The greatest amount of a row.
const MOST: i64 = 1 << 40;

/// Water, heat and salt of the row's three cells, and the numbers of its two faces.
#[derive(Clone, Copy)]
pub(crate) struct Row {
    pub(crate) amounts: [[i64; 3]; 3],
    pub(crate) faces: [i64; 2],
}

// The amount of a column of the row, 0 beyond its ends.
fn column(row: &[i64; 3], i: u32) -> i64
    ensures { IsLittle result }
{
    match row.get(i as usize) {
        Some(x) => (*x).max(0).min(MOST),
        None => 0,
    }
}

// A field of a piece of the row: its cells, and the holes along the row. What lies beyond the row's ends is dry, as all other holes.
fn field_of(alloc: Global, piece: &Piece, row: &[i64; 3]) -> Result<Field, AllocError>
    requires { IsOfRow piece.now }
    ensures { IfOk result (IsFieldOf piece.now) }
{
    let mut field = Field::new(alloc, piece, 2)?;
    for i in 0..piece.nx {
        field.set(i, 0, column(row, piece.i0 + i));
    }
    for depth in 1..3 {
        // West of the row's first cell a column's number wraps, and is beyond the row's end too.
        field.set_halo(Side::W, 0, depth, column(row, piece.i0.wrapping_sub(depth)));
        field.set_halo(
            Side::E,
            0,
            depth,
            column(row, piece.i0 + piece.nx - 1 + depth),
        );
    }
    Ok(field)
}

// The ocean of a piece of the row, with its holes.
fn ocean_of(alloc: Global, piece: &Piece, row: &Row) -> Result<OceanPiece, AllocError>
    requires { IsOfRow piece.now }
    ensures { IfOk result (IsOceanOf piece.now) }
{
    let area = field_of(alloc, piece, &[1; 3])?;
    let mut ocean = OceanPiece::new(alloc, piece, &area, 1)?;
    for n in 0..3 {
        let field = field_of(alloc, piece, &row.amounts[n as usize])?;
        ocean.load(0, n, &field);
        ocean.load_halo(0, n, &field);
    }
    Ok(ocean)
}

// The number of a face of the row, 0 beyond its ends.
fn face(faces: &[i64; 2], k: u32) -> i64
    ensures { IsFaceNumber result }
{
    match faces.get(k as usize) {
        Some(u) => (*u).max(-MOST).min(MOST),
        None => 0,
    }
}

// Gives the faces of a piece of the row their numbers, as its cells see them.
fn set_faces(piece: &Piece, faces: &[i64; 2], ocean: &mut OceanPiece)
    requires piece { IsOfRow piece.now }
    requires ocean { IsOceanOf piece.now ocean.old }
    ensures { IsOceanOf piece.now ocean.new }
{
    for i in 0..piece.nx {
        let k = piece.i0 + i;
        ocean.set_face(0, i, 0, Side::E, face(faces, k));
        ocean.set_face(0, i, 0, Side::W, -face(faces, k.wrapping_sub(1)));
    }
}

// A step of the ocean of a piece of the row.
fn step(piece: &Piece, ocean: &mut OceanPiece)
    requires piece { IsOfRow piece.now }
    requires ocean { IsOceanOf piece.now ocean.old }
    ensures area { ocean.new.area ≡ ocean.old.area }
    ensures count { length ocean.new.layers ≡ 1 }
{
    let rates = example_rates();
    ocean.interior(&rates);
    ocean.rim(&rates);
    ocean.finish(&rates);
}

// Writes the amounts of a piece's cells, and the numbers of the faces east of them, to the row's.
fn write(piece: &Piece, ocean: &OceanPiece, row: &mut Row)
    requires piece { IsOfRow piece.now }
    requires area { IsFieldOf piece.now ocean.now.area }
    requires count { length ocean.now.layers ≡ 1 }
{
    for i in 0..piece.nx {
        let k = (piece.i0 + i) as usize;
        for n in 0..3 {
            row.amounts[n as usize][k] = ocean.field(0, n).get(i, 0);
        }
        if k < 2 {
            row.faces[k] = ocean.faces(0).side(i, 0, Side::E);
        }
    }
}

/// Takes the cells of a row from column `i0` on, so many, one step further as a piece, and writes to the other row what they have
/// then. Cells beyond the row's end count as no memory.
pub(crate) fn step_piece(
    alloc: Global,
    (i0, nx): (u32, u32),
    row: &Row,
    after: &mut Row,
) -> Result<(), AllocError> {
    if i0 > 2 || nx == 0 || nx > 3 - i0 {
        return Err(AllocError);
    }
    let piece = Piece {
        tile: 0,
        i0,
        nx,
        j0: 0,
        ny: 1,
    };
    let mut ocean = ocean_of(alloc, &piece, row)?;
    set_faces(&piece, &row.faces, &mut ocean);
    step(&piece, &mut ocean);
    write(&piece, &ocean, after);
    Ok(())
}
