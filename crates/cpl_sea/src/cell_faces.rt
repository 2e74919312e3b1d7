// Where the sides of all cells have their faces.
ghost use Rattle.std.specs.Prelude.{◌≡◌, ◌<◌, ◌≤◌, ◌^◌, ℕ, length, IfOk, slice_index_or, slice_set};
ghost use Rattle.cpl_mosaic.specs.declared.parts.Side.{Side};
ghost use Rattle.cpl_faces.specs.Faces.{faces_of};
ghost use Rattle.cpl_state.specs.Transport.{no_face};
ghost use Rattle.cpl_sea.specs.declared.links.SideFace.TheVariants.{Alone};
ghost use Rattle.cpl_sea.specs.Links.{all_cell_faces};
ghost use Rattle.cpl_sea.specs.Lists.{HasSides, by_both, by_firsts, or_else, with_side};
ghost use Rattle.cpl_sea.specs.Passes.{cell_faces_at};
ghost use Rattle.cpl_sea.specs.Seas.{IsOcean};

use crate::links::{CellFaces, SideFace};
use cpl_faces::Face;
use cpl_mosaic::{Mesh, Side};
use std::alloc::{AllocError, Global};

// A side that has its face keeps it.
fn or_else(side: SideFace, other: SideFace) -> SideFace
    ensures { result ≡ or_else side other }
{
    match side {
        SideFace::Alone => other,
        _ => side,
    }
}

// A cell's faces with one more, where the side has none yet.
fn with_side(faces: CellFaces, side: Side, face: SideFace) -> CellFaces
    ensures { result ≡ with_side faces side face }
{
    match side {
        Side::W => CellFaces {
            west: or_else(faces.west, face),
            ..faces
        },
        Side::E => CellFaces {
            east: or_else(faces.east, face),
            ..faces
        },
        Side::S => CellFaces {
            south: or_else(faces.south, face),
            ..faces
        },
        Side::N => CellFaces {
            north: or_else(faces.north, face),
            ..faces
        },
    }
}

// Gives a side of a cell its face, where it has none yet.
fn enter(cells: &mut [CellFaces], n: u32, side: Side, face: SideFace)
    requires { n < length cells.old }
    ensures { cells.new ≡ slice_set cells.old n (with_side (cell_faces_at cells.old n) side face) }
{
    let n = n as usize;
    cells[n] = with_side(cells[n], side, face);
}

// Gives the first sides of the faces their faces.
fn enter_firsts(faces: &[Face], cells: &mut [CellFaces])
    requires few { length faces.now ≤ 2 ^ 24 }
    requires within { (f : ℕ) → f < length faces.now → (slice_index_or faces.now f no_face).first < length cells.old }
    requires none { HasSides cells.old (length cells.old) (λ n side. Alone) }
    ensures { HasSides cells.new (length cells.old) (by_firsts faces.now) }
{
    for (f, face) in faces.iter().enumerate() {
        enter(
            cells,
            face.first,
            face.first_side,
            SideFace::First(f as u32),
        );
    }
}

// Gives the second sides of the faces their faces.
fn enter_seconds(faces: &[Face], cells: &mut [CellFaces])
    requires few { length faces.now ≤ 2 ^ 24 }
    requires within { (f : ℕ) → f < length faces.now → (slice_index_or faces.now f no_face).second < length cells.old }
    requires firsts { HasSides cells.old (length cells.old) (by_firsts faces.now) }
    ensures { HasSides cells.new (length cells.old) (by_both faces.now faces.now) }
{
    for (f, face) in faces.iter().enumerate() {
        enter(
            cells,
            face.second,
            face.second_side,
            SideFace::Second(f as u32),
        );
    }
}

// Gives both sides of the faces their faces.
fn enter_faces(faces: &[Face], cells: &mut [CellFaces])
    requires few { length faces.now ≤ 2 ^ 24 }
    requires firsts { (f : ℕ) → f < length faces.now → (slice_index_or faces.now f no_face).first < length cells.old }
    requires seconds { (f : ℕ) → f < length faces.now → (slice_index_or faces.now f no_face).second < length cells.old }
    requires none { HasSides cells.old (length cells.old) (λ n side. Alone) }
    ensures { HasSides cells.new (length cells.old) (by_both faces.now faces.now) }
{
    enter_firsts(faces, cells);
    enter_seconds(faces, cells);
}

// Where the sides of all cells have their faces, in time linear in both.
pub(crate) fn cell_faces(
    alloc: Global,
    mesh: &Mesh,
    faces: &[Face],
) -> Result<Vec<CellFaces>, AllocError>
    requires ocean { IsOcean mesh.now }
    requires faces { faces.now ≡ faces_of mesh.now.mosaic }
    ensures { IfOk result (λ cells. cells.items ≡ all_cell_faces mesh.now) }
{
    let none = CellFaces {
        west: SideFace::Alone,
        east: SideFace::Alone,
        south: SideFace::Alone,
        north: SideFace::Alone,
    };
    let mut cells = vec![in alloc; none; mesh.mosaic.cells() as usize]?;
    enter_faces(faces, cells.as_mut_slice());
    Ok(cells)
}
