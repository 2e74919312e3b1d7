// Strips for faces.
ghost use Rattle.std.specs.Prelude.{◌≡◌, ◌+◌, ◌*◌, ◌<◌, ◌≤◌, map, length, IfOk, OnOk, IfSome};
ghost use Rattle.cpl_mosaic.specs.Contacts.{AreTiles};
ghost use Rattle.cpl_mosaic.specs.Sides.{IsCellOf};
ghost use Rattle.cpl_mosaic.specs.Mates.{MatesAgree};
ghost use Rattle.cpl_layout.specs.Pieces.{pieces_of};
ghost use Rattle.cpl_layout.specs.Owners.{IsPieceOf};
ghost use Rattle.cpl_strip.specs.Holes.{IsHoleOf, side_at};
ghost use Rattle.cpl_strip.specs.Faces.{AreFaceStrips, spot_of};
ghost use Rattle.cpl_strip.specs.Tables.{IsFilled, picks, made_at};
ghost use Rattle.cpl_strip.specs.Between.{face_strips_of};
ghost use Rattle.cpl_strip.specs.Taken.{holes_in, comes, face_taken, side_takes, face_strip_made};

use crate::holes::{edge_cell, hole_count, nth_hole, place_in};
use crate::table::Table;
use crate::{FaceStrip, Hole};
use cpl_faces::rank;
use cpl_fixed::List;
use cpl_layout::{Layout, Piece};
use cpl_mosaic::{CellId, Mosaic, Side};
use std::alloc::{AllocError, Global};

/// The two sides of a face.
#[derive(Clone, Copy)]
pub(crate) struct Across {
    pub(crate) source: (u32, u32, Side),
    pub(crate) target: (u32, u32, Side),
}

// Whether one side comes before another: by tile, then row, then column, then W, E, S, N.
fn comes(a: (CellId, Side), b: (CellId, Side)) -> bool
    ensures { result ≡ comes a b }
{
    if a.0.tile != b.0.tile {
        a.0.tile < b.0.tile
    } else if a.0.j != b.0.j {
        a.0.j < b.0.j
    } else if a.0.i != b.0.i {
        a.0.i < b.0.i
    } else {
        rank(a.1) < rank(b.1)
    }
}

// A side in the piece of its cell: column, row, side.
fn spot_of(layout: &Layout, a: (CellId, Side)) -> (u32, u32, Side)
    requires { IsCellOf layout.now.tiles a.0 }
    ensures { result ≡ spot_of layout.now a }
{
    let piece = layout.piece(layout.owner(a.0));
    let (i, j) = place_in(piece, a.0);
    (i, j, a.1)
}

// What a side along an edge of a piece takes, and from which piece: the face of which it is the second side.
fn taken_by(layout: &Layout, mosaic: &Mosaic, piece: Piece, hole: Hole) -> Option<(u32, Across)>
    requires tiles { layout.now.tiles ≡ mosaic.now.tiles }
    requires sizes { AreTiles mosaic.now.tiles }
    requires piece { IsPieceOf mosaic.now.tiles piece }
    requires hole { IsHoleOf piece 2 hole }
    ensures taken { result ≡ face_taken mosaic.now layout.now (side_at piece hole) }
    ensures from { IfSome result (λ taken. taken.0 < pieces_of layout.now) }
{
    let second = (edge_cell(piece, hole.side, hole.at), hole.side);
    let first = mosaic.mate(second.0, second.1)?;
    if !comes(first, second) {
        return None;
    }
    let across = Across {
        source: spot_of(layout, first),
        target: spot_of(layout, second),
    };
    Some((layout.owner(first.0), across))
}

// Adds what the sides along the edges of a piece take.
fn add_faces(
    layout: &Layout,
    mosaic: &Mosaic,
    to: u32,
    table: &mut Table<Across>,
) -> Result<(), AllocError>
    requires tiles { layout.now.tiles ≡ mosaic.now.tiles }
    requires sizes { AreTiles mosaic.now.tiles }
    requires piece { to < pieces_of layout.now }
    requires table { IsFilled (side_takes mosaic.now layout.now) (holes_in layout.now 1) (pieces_of layout.now) to 0 table.old }
    ensures { OnOk result (IsFilled (side_takes mosaic.now layout.now) (holes_in layout.now 1) (pieces_of layout.now) (to + 1) 0 table.new) }
{
    let pieces = layout.pieces();
    let piece = layout.piece(to);
    for m in 0..hole_count(piece, 1) {
        if let Some((from, across)) = taken_by(layout, mosaic, piece, nth_hole(piece, m)) {
            table.add((from * pieces + to) as usize, across)?;
        }
    }
    Ok(())
}

// What all sides along the edges of pieces take.
fn face_table(alloc: Global, layout: &Layout, mosaic: &Mosaic) -> Result<Table<Across>, AllocError>
    requires tiles { layout.now.tiles ≡ mosaic.now.tiles }
    requires sizes { AreTiles mosaic.now.tiles }
    ensures { IfOk result (λ table. IsFilled (side_takes mosaic.now layout.now) (holes_in layout.now 1) (pieces_of layout.now) (pieces_of layout.now) 0 table) }
{
    let pieces = layout.pieces();
    let mut table = Table::new(alloc, pieces)?;
    for to in 0..pieces {
        add_faces(layout, mosaic, to, &mut table)?;
    }
    Ok(table)
}

// The sources of links.
fn sources_of(alloc: Global, links: &[Across]) -> Result<Vec<(u32, u32, Side)>, AllocError>
    ensures { IfOk result (λ sources. sources.items ≡ map (λ link. link.source) links.now) }
{
    links.iter().map(|link| link.source).collect(alloc)
}

// The targets of links.
fn targets_of(alloc: Global, links: &[Across]) -> Result<Vec<(u32, u32, Side)>, AllocError>
    ensures { IfOk result (λ targets. targets.items ≡ map (λ link. link.target) links.now) }
{
    links.iter().map(|link| link.target).collect(alloc)
}

// The face strips of what stands in a table.
fn strips_in(
    alloc: Global,
    pieces: u32,
    table: &Table<Across>,
) -> Result<Vec<FaceStrip>, AllocError>
    requires few { (1 ≤ pieces) × (pieces ≤ 64) }
    requires size { length table.now ≡ pieces * pieces }
    ensures { IfOk result (λ strips. strips.items ≡ picks (made_at face_strip_made pieces table.now) (pieces * pieces)) }
{
    let mut strips = Vec::new(alloc);
    for pair in 0..pieces * pieces {
        let links = table.list(pair as usize);
        if !links.is_empty() {
            strips.push(FaceStrip {
                from: pair / pieces,
                to: pair % pieces,
                sources: List::from_vec(sources_of(alloc, links)?),
                targets: List::from_vec(targets_of(alloc, links)?),
            })?;
        }
    }
    Ok(strips)
}

/// The face strips between the pieces of a layout of a mosaic, sorted by `from`, then `to`.
///
/// A face is a pair of sides that meet; its first side is the lesser by tile, then row, then column, then W, E, S, N. Each
/// face with its sides in two pieces, or with both along the edge of one piece as at a fold, stands in exactly one strip:
/// its first side as a source, its second as the target of the same number. In a strip the faces stand in the order of
/// their targets along the piece's edges: W, E, S, N, then along the edge. Its time is linear in the sides along the edges
/// and in the pairs of pieces.
pub fn face_strips(
    alloc: Global,
    layout: &Layout,
    mosaic: &Mosaic,
) -> Result<Vec<FaceStrip>, AllocError>
    requires { layout.now.tiles ≡ mosaic.now.tiles }
    ensures links { IfOk result (λ strips. AreFaceStrips mosaic.now layout.now strips.items) }
    ensures exact { IfOk result (λ strips. strips.items ≡ face_strips_of mosaic.now layout.now) }
{
    // The contract of `cells` has the limits of the tiles, and that mates agree.
    let _cells = mosaic.cells();
    let table = face_table(alloc, layout, mosaic)?;
    strips_in(alloc, layout.pieces(), &table)
}
