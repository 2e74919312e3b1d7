// The faces of a mosaic in their order.
ghost use Rattle.std.specs.Prelude.{◌≡◌, ◌<◌, ◌++◌, [], IfOk, OnOk};
ghost use Rattle.std.specs.List.{cons_option};
ghost use Rattle.cpl_mosaic.specs.Lists.{MosaicLists};
ghost use Rattle.cpl_mosaic.specs.Contacts.{cells_of};
ghost use Rattle.cpl_mosaic.specs.Cells.{NumbersAgree};
ghost use Rattle.cpl_mosaic.specs.Mates.{MatesAgree};
ghost use Rattle.cpl_faces.specs.Faces.{AreApart, AreFaces, is_in_order, face_from, faces_from, faces_of};

use crate::face::Face;
use crate::sides::rank;
use cpl_mosaic::{Mosaic, Side};
use std::alloc::{AllocError, Global};

// Whether the first side comes first.
fn is_in_order(face: Face) -> bool
    ensures { result ≡ is_in_order face }
{
    if face.first == face.second {
        rank(face.first_side) < rank(face.second_side)
    } else {
        face.first < face.second
    }
}

// The face whose first side this is.
fn face_from(mosaic: &Mosaic, n: u32, side: Side) -> Option<Face>
    requires { n < cells_of mosaic.now.tiles }
    ensures { result ≡ face_from mosaic.now n side }
{
    // The contract of `cells` has the numbers of the cells.
    let _cells = mosaic.cells();
    let (cell, second_side) = mosaic.mate(mosaic.cell(n), side)?;
    let face = Face {
        first: n,
        first_side: side,
        second: mosaic.number(cell),
        second_side,
    };
    if is_in_order(face) { Some(face) } else { None }
}

// Appends the face whose first side this is, if there is one.
fn push_face(mosaic: &Mosaic, n: u32, side: Side, faces: &mut Vec<Face>) -> Result<(), AllocError>
    requires { n < cells_of mosaic.now.tiles }
    ensures { OnOk result (faces.new.items ≡ faces.old.items ++ cons_option (face_from mosaic.now n side) []) }
{
    if let Some(face) = face_from(mosaic, n, side) {
        faces.push(face)?;
    }
    Ok(())
}

// Appends the faces whose first sides are of this cell.
fn push_faces(mosaic: &Mosaic, n: u32, faces: &mut Vec<Face>) -> Result<(), AllocError>
    requires { n < cells_of mosaic.now.tiles }
    ensures { OnOk result (faces.new.items ≡ faces.old.items ++ faces_from mosaic.now n) }
{
    push_face(mosaic, n, Side::W, faces)?;
    push_face(mosaic, n, Side::E, faces)?;
    push_face(mosaic, n, Side::S, faces)?;
    push_face(mosaic, n, Side::N, faces)
}

/// The faces of a mosaic by their first sides, in whole order, then W, E, S, N: each pair of sides that meet, once. They are at
/// most four for each cell. Its time is linear in the cells.
///
/// Faces and their order are defined by this project.
pub fn faces(alloc: Global, mosaic: &Mosaic) -> Result<Vec<Face>, AllocError>
    ensures faces { IfOk result (λ faces. faces.items ≡ faces_of mosaic.now) }
    ensures are { IfOk result (λ faces. AreFaces mosaic.now faces.items) }
{
    let cells = mosaic.cells();
    let mut faces = Vec::with_capacity(alloc, 2 * cells as usize)?;
    for n in 0..cells {
        push_faces(mosaic, n, &mut faces)?;
    }
    Ok(faces)
}

/// The faces of a mosaic, whose numbers and mates agree, are each there once and in order, and each side is of one face at most. No
/// work is done.
pub fn faces_law()
    ensures each { (mosaic : MosaicLists) → NumbersAgree mosaic.tiles → MatesAgree mosaic → AreFaces mosaic (faces_of mosaic) }
    ensures apart { (mosaic : MosaicLists) → NumbersAgree mosaic.tiles → MatesAgree mosaic → AreApart (faces_of mosaic) }
{}
