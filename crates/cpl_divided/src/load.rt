// Whole lists, put into the fields of pieces and taken out again.
ghost use Rattle.std.specs.Prelude.{◌≡◌, ℕ, ◌^◌, ◌<◌, length, pos, IfOk};
ghost use Rattle.cpl_mosaic.specs.declared.parts.Side.{Side};
ghost use Rattle.cpl_mosaic.specs.Contacts.{cells_of};
ghost use Rattle.cpl_mosaic.specs.Cells.{NumbersAgree};
ghost use Rattle.cpl_layout.specs.Owners.{IsPieceOf};
ghost use Rattle.cpl_field.specs.Spots.{HoleAt, IsSpot, number_at};
ghost use Rattle.cpl_divided.specs.Whole.{IsFieldOf, AreFields, HasCells, HoldWhole, Gathers};

use cpl_field::{Field, part};
use cpl_layout::{Layout, Piece};
use cpl_mosaic::{CellId, Mosaic};
use std::alloc::{AllocError, Global};

// The field of a piece with the numbers of a whole list at its cells, and 0 in its holes.
fn load_piece(
    alloc: Global,
    mosaic: &Mosaic,
    piece: &Piece,
    xs: &[i64],
) -> Result<Field, AllocError>
    requires piece { IsPieceOf mosaic.now.tiles piece.now }
    requires numbers { NumbersAgree mosaic.now.tiles }
    requires few { cells_of mosaic.now.tiles < 2 ^ 32 }
    requires count { length xs.now ≡ cells_of mosaic.now.tiles }
    ensures field { IfOk result (IsFieldOf piece.now) }
    ensures cells { IfOk result (HasCells mosaic.now.tiles xs.now piece.now) }
    ensures holes { IfOk result (λ field. (side : Side) (k depth : ℕ) → IsSpot field (HoleAt side k depth) → number_at field (HoleAt side k depth) ≡ pos 0) }
{
    let mut field = Field::new(alloc, piece, 1)?;
    for j in 0..piece.ny {
        let first = mosaic.number(CellId {
            tile: piece.tile,
            i: piece.i0,
            j: piece.j0 + j,
        });
        field.set_row(j, part(xs, first as usize, piece.nx as usize));
    }
    Ok(field)
}

/// The fields of all pieces with the numbers of a whole list at their cells.
pub(crate) fn load(
    alloc: Global,
    layout: &Layout,
    mosaic: &Mosaic,
    xs: &[i64],
) -> Result<Vec<Field>, AllocError>
    requires tiles { layout.now.tiles ≡ mosaic.now.tiles }
    requires count { length xs.now ≡ cells_of mosaic.now.tiles }
    ensures { IfOk result (λ fields. HoldWhole mosaic.now layout.now xs.now fields.items) }
{
    // The contract of `cells` has the law of numbers.
    let _cells = mosaic.cells();
    let pieces = layout.pieces();
    let mut fields = Vec::with_capacity(alloc, pieces as usize)?;
    for p in 0..pieces {
        fields.push(load_piece(alloc, mosaic, &layout.piece(p), xs)?)?;
    }
    Ok(fields)
}

/// The whole list that the fields have at their cells.
pub(crate) fn gather(
    alloc: Global,
    layout: &Layout,
    mosaic: &Mosaic,
    fields: &[Field],
) -> Result<Vec<i64>, AllocError>
    requires tiles { layout.now.tiles ≡ mosaic.now.tiles }
    requires fields { AreFields layout.now fields.now }
    ensures { IfOk result (λ xs. Gathers mosaic.now.tiles layout.now fields.now xs.items) }
{
    // The contract of `pieces` has the law of owners.
    let _pieces = layout.pieces();
    let cells = mosaic.cells();
    let mut xs = Vec::with_capacity(alloc, cells as usize)?;
    for n in 0..cells {
        let cell = mosaic.cell(n);
        let p = layout.owner(cell);
        let piece = layout.piece(p);
        xs.push(fields[p as usize].get(cell.i - piece.i0, cell.j - piece.j0))?;
    }
    Ok(xs)
}
