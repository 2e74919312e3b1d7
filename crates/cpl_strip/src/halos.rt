// Strips for holes.
ghost use Rattle.std.specs.Prelude.{◌≡◌, ◌+◌, ◌*◌, ◌<◌, ◌≤◌, map, length, IfOk, OnOk, IfSome};
ghost use Rattle.cpl_mosaic.specs.Contacts.{AreTiles};
ghost use Rattle.cpl_mosaic.specs.Mates.{MatesAgree};
ghost use Rattle.cpl_layout.specs.Pieces.{pieces_of, piece_of};
ghost use Rattle.cpl_layout.specs.Owners.{IsPieceOf, OwnersAgree};
ghost use Rattle.cpl_strip.specs.Holes.{IsHoleOf};
ghost use Rattle.cpl_strip.specs.Strips.{AreStrips};
ghost use Rattle.cpl_strip.specs.Tables.{IsFilled, picks, made_at};
ghost use Rattle.cpl_strip.specs.Between.{strips_of};
ghost use Rattle.cpl_strip.specs.Taken.{taken_by, hole_takes, holes_in, strip_made};

use crate::holes::{edge_cell, hole_count, nth_hole, place_in};
use crate::table::Table;
use crate::{Hole, Strip};
use cpl_fixed::List;
use cpl_layout::{Layout, Piece};
use cpl_mosaic::Mosaic;
use std::alloc::{AllocError, Global};

/// A hole of one piece beside a place of another.
#[derive(Clone, Copy)]
pub(crate) struct Beside {
    pub(crate) place: (u32, u32),
    pub(crate) hole: Hole,
}

// What a hole of a piece takes, and from which piece.
fn taken_by(layout: &Layout, mosaic: &Mosaic, piece: Piece, hole: Hole) -> Option<(u32, Beside)>
    requires tiles { layout.now.tiles ≡ mosaic.now.tiles }
    requires sizes { AreTiles mosaic.now.tiles }
    requires mates { MatesAgree mosaic.now }
    requires piece { IsPieceOf mosaic.now.tiles piece }
    requires hole { IsHoleOf piece 2 hole }
    ensures taken { result ≡ taken_by mosaic.now layout.now piece hole }
    ensures from { IfSome result (λ taken. taken.0 < pieces_of layout.now) }
{
    let cell = edge_cell(piece, hole.side, hole.at);
    let (cell, _) = mosaic.walk(cell, hole.side, hole.depth)?;
    let from = layout.owner(cell);
    let place = place_in(layout.piece(from), cell);
    Some((from, Beside { place, hole }))
}

// Adds what the holes of a piece take.
fn add_holes(
    layout: &Layout,
    mosaic: &Mosaic,
    width: u32,
    to: u32,
    table: &mut Table<Beside>,
) -> Result<(), AllocError>
    requires tiles { layout.now.tiles ≡ mosaic.now.tiles }
    requires sizes { AreTiles mosaic.now.tiles }
    requires mates { MatesAgree mosaic.now }
    requires width { width ≤ 2 }
    requires piece { to < pieces_of layout.now }
    requires table { IsFilled (hole_takes mosaic.now layout.now) (holes_in layout.now width) (pieces_of layout.now) to 0 table.old }
    ensures { OnOk result (IsFilled (hole_takes mosaic.now layout.now) (holes_in layout.now width) (pieces_of layout.now) (to + 1) 0 table.new) }
{
    let pieces = layout.pieces();
    let piece = layout.piece(to);
    for m in 0..hole_count(piece, width) {
        if let Some((from, beside)) = taken_by(layout, mosaic, piece, nth_hole(piece, m)) {
            table.add((from * pieces + to) as usize, beside)?;
        }
    }
    Ok(())
}

// What all holes take.
fn hole_table(
    alloc: Global,
    layout: &Layout,
    mosaic: &Mosaic,
    width: u32,
) -> Result<Table<Beside>, AllocError>
    requires tiles { layout.now.tiles ≡ mosaic.now.tiles }
    requires sizes { AreTiles mosaic.now.tiles }
    requires mates { MatesAgree mosaic.now }
    requires width { width ≤ 2 }
    ensures { IfOk result (λ table. IsFilled (hole_takes mosaic.now layout.now) (holes_in layout.now width) (pieces_of layout.now) (pieces_of layout.now) 0 table) }
{
    let pieces = layout.pieces();
    let mut table = Table::new(alloc, pieces)?;
    for to in 0..pieces {
        add_holes(layout, mosaic, width, to, &mut table)?;
    }
    Ok(table)
}

// The places of links.
fn places_of(alloc: Global, links: &[Beside]) -> Result<Vec<(u32, u32)>, AllocError>
    ensures { IfOk result (λ places. places.items ≡ map (λ link. link.place) links.now) }
{
    links.iter().map(|link| link.place).collect(alloc)
}

// The holes of links.
fn holes_of(alloc: Global, links: &[Beside]) -> Result<Vec<Hole>, AllocError>
    ensures { IfOk result (λ holes. holes.items ≡ map (λ link. link.hole) links.now) }
{
    links.iter().map(|link| link.hole).collect(alloc)
}

// The strips of what stands in a table.
fn strips_in(alloc: Global, pieces: u32, table: &Table<Beside>) -> Result<Vec<Strip>, AllocError>
    requires few { (1 ≤ pieces) × (pieces ≤ 64) }
    requires size { length table.now ≡ pieces * pieces }
    ensures { IfOk result (λ strips. strips.items ≡ picks (made_at strip_made pieces table.now) (pieces * pieces)) }
{
    let mut strips = Vec::new(alloc);
    for pair in 0..pieces * pieces {
        let links = table.list(pair as usize);
        if !links.is_empty() {
            strips.push(Strip {
                from: pair / pieces,
                to: pair % pieces,
                places: List::from_vec(places_of(alloc, links)?),
                holes: List::from_vec(holes_of(alloc, links)?),
            })?;
        }
    }
    Ok(strips)
}

/// The strips between the pieces of a layout of a mosaic, for halos of width 1 or 2, sorted by `from`, then `to`.
///
/// Each hole with a walk stands in exactly one strip, beside the place of the cell that the walk leads to: `depth` steps
/// from the piece's edge out of its side, through contacts too. So a piece may give to its own holes. In a strip the holes
/// stand in order of depth, then W, E, S, N, then along the edge. Its time is linear in the holes and in the pairs of
/// pieces.
pub fn strips(
    alloc: Global,
    layout: &Layout,
    mosaic: &Mosaic,
    width: u32,
) -> Result<Vec<Strip>, AllocError>
    requires tiles { layout.now.tiles ≡ mosaic.now.tiles }
    requires width { (1 ≤ width) × (width ≤ 2) }
    ensures links { IfOk result (λ strips. AreStrips mosaic.now layout.now width strips.items) }
    ensures exact { IfOk result (λ strips. strips.items ≡ strips_of mosaic.now layout.now width) }
{
    // The contract of `cells` has the limits of the tiles, and that mates agree.
    let _cells = mosaic.cells();
    let table = hole_table(alloc, layout, mosaic, width)?;
    strips_in(alloc, layout.pieces(), &table)
}
