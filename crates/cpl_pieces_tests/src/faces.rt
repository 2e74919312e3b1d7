// Worked cases of face strips, and of the numbers that they carry.
ghost use Rattle.cpl_layout.specs.Owners.{IsPiece};

use crate::layouts::{Cut, cut};
use crate::shapes::{FOLDED, ONE_CELL, SPHERE, make};
use cpl_field::Faces;
use cpl_layout::{Layout, Piece};
use cpl_mosaic::Side;
use cpl_mosaic::Side::{E, N, S, W};
use cpl_strip::{FaceStrip, face_strips};
use std::alloc::{AllocError, Global};
use std::marker::Model;
use std::test::Fail;

const MOST: i64 = 1 << 40;

/// A side of a cell of a piece, by column and row.
type Spot = (u32, u32, Side);

/// A piece, and a side in it.
type Place = (u32, Spot);

/// The faces of a piece with its shape, so that a call can look before it asks.
#[derive(Drop)]
struct Block {
    nx: u32,
    ny: u32,
    faces: Faces,
}

impl Model for Block {
    ghost use Rattle.std.specs.Prelude.{◌≡◌};
    ghost use Rattle.cpl_field.specs.Crossings.{FaceNumbers};

    ghost Value = { FaceNumbers };

    ghost view = { λ a. a.faces };

    ghost invariant = { λ a. (a.nx ≡ a.faces.nx) × (a.ny ≡ a.faces.ny) };
}

impl Block {
    fn new(alloc: Global, piece: &Piece) -> Result<Block, AllocError>
        requires { IsPiece piece.now }
    {
        Ok(Block {
            nx: piece.nx,
            ny: piece.ny,
            faces: Faces::new(alloc, piece)?,
        })
    }

    /// What crosses a side outward, where it is one of the piece.
    fn side(&self, (i, j, side): Spot) -> Option<i64> {
        if i < self.nx && j < self.ny {
            Some(self.faces.side(i, j, side))
        } else {
            None
        }
    }

    /// Sets what crosses a side outward, where it is one of the piece and the number is one of a face.
    fn set_side(&mut self, (i, j, side): Spot, x: i64) -> Option<()> {
        if i < self.nx && j < self.ny && x >= -MOST && x <= MOST {
            self.faces.set_side(i, j, side, x);
            Some(())
        } else {
            None
        }
    }
}

// The faces of each piece, all 0.
fn blocks_of(alloc: Global, layout: &Layout) -> Result<Vec<Block>, AllocError> {
    let mut blocks = Vec::new(alloc);
    for p in 0..layout.pieces() {
        blocks.push(Block::new(alloc, &layout.piece(p))?)?;
    }
    Ok(blocks)
}

// Gives each target of a face strip the opposite of its source's number, in their order.
fn carry(blocks: &mut [Block], strip: &FaceStrip) -> Option<()> {
    let sources = strip.sources.as_slice().iter();
    for (source, target) in sources.zip(strip.targets.as_slice()) {
        let x = blocks.get(strip.from as usize)?.side(*source)?;
        let to = blocks.get_mut(strip.to as usize)?;
        to.set_side(*target, x.checked_neg()?)?;
    }
    Some(())
}

// The number of a side, once another has one and all face strips have carried theirs. None at all where something fails.
fn seen(
    alloc: Global,
    (shape, px, py): Cut,
    (from, source): Place,
    x: i64,
    (to, target): Place,
) -> Option<i64> {
    let mosaic = make(alloc, shape).ok()?;
    let layout = cut(alloc, &mosaic, px, py).ok()?;
    let strips = face_strips(alloc, &layout, &mosaic).ok()?;
    let mut blocks = blocks_of(alloc, &layout).ok()?;
    blocks.get_mut(from as usize)?.set_side(source, x)?;
    for strip in &strips {
        carry(&mut blocks, strip)?;
    }
    blocks.get(to as usize)?.side(target)
}

// One piece of 4 by 2 cells.
const PLAIN: Cut = ((&[(4, 2)], &[]), 1, 1);

// A side and its number, and what then another side has.
const SEEN: [(Cut, Place, i64, Place, i64); 10] = [
    (PLAIN, (0, (0, 0, N)), 5, (0, (0, 0, N)), 5),
    (PLAIN, (0, (0, 0, N)), 5, (0, (0, 1, S)), -5),
    (PLAIN, (0, (0, 1, S)), 7, (0, (0, 0, N)), -7),
    // On the piece's edge a side has a number of its own.
    (PLAIN, (0, (0, 1, N)), 3, (0, (0, 1, N)), 3),
    (PLAIN, (0, (0, 1, N)), 3, (0, (0, 0, N)), 0),
    ((FOLDED, 1, 1), (0, (0, 0, N)), 5, (0, (3, 0, N)), -5),
    ((FOLDED, 2, 1), (0, (0, 0, N)), 5, (1, (1, 0, N)), -5),
    ((FOLDED, 4, 1), (0, (0, 0, N)), 5, (3, (0, 0, N)), -5),
    ((SPHERE, 1, 1), (0, (0, 1, N)), 7, (2, (0, 1, W)), -7),
    ((SPHERE, 2, 2), (2, (0, 0, N)), 7, (10, (0, 0, W)), -7),
];

#[test]
fn a_face_has_the_opposite_number_on_its_other_side(rt: HostRuntime) -> Result<(), Fail> {
    for (shape, source, x, target, want) in SEEN {
        let found = seen(rt.alloc(), shape, source, x, target);
        assert_eq!(rt; found, Some(want), "{x} of piece {source:?}");
    }
    Ok(())
}

// To which side of which piece a side of a piece gives its number.
fn given_to(alloc: Global, (shape, px, py): Cut, (from, source): Place) -> Option<Place> {
    let mosaic = make(alloc, shape).ok()?;
    let layout = cut(alloc, &mosaic, px, py).ok()?;
    for strip in &face_strips(alloc, &layout, &mosaic).ok()? {
        let sources = strip.sources.as_slice().iter();
        for (other, target) in sources.zip(strip.targets.as_slice()) {
            if strip.from == from && *other == source {
                return Some((strip.to, *target));
            }
        }
    }
    None
}

const GIVEN: [(Cut, Place, Option<Place>); 8] = [
    ((FOLDED, 1, 1), (0, (0, 0, N)), Some((0, (3, 0, N)))),
    ((FOLDED, 1, 1), (0, (1, 0, N)), Some((0, (2, 0, N)))),
    ((FOLDED, 1, 1), (0, (2, 0, N)), None),
    ((FOLDED, 1, 1), (0, (3, 0, N)), None),
    ((FOLDED, 1, 1), (0, (0, 0, E)), None),
    ((ONE_CELL, 1, 1), (0, (0, 0, W)), Some((0, (0, 0, E)))),
    ((SPHERE, 1, 1), (0, (0, 1, N)), Some((2, (0, 1, W)))),
    ((SPHERE, 1, 1), (2, (0, 1, W)), None),
];

#[test]
fn the_first_side_of_a_face_gives(rt: HostRuntime) -> Result<(), Fail> {
    for (shape, source, want) in GIVEN {
        let target = given_to(rt.alloc(), shape, source);
        assert_eq!(rt; target, want, "from piece {source:?}");
    }
    Ok(())
}
