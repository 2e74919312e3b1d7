// Strips and face strips, found by their pieces.
ghost use Rattle.std.specs.Prelude.{◌≡◌, ◌*◌, ◌<◌, ◌≤◌, IfOk, All, length};
ghost use Rattle.std.specs.Option.{option_copied};
ghost use Rattle.cpl_fixed.specs.declared.limits.TheConstants.{MOST_EXCHANGE_CELLS};
ghost use Rattle.cpl_group.specs.Parts.{IsStrip};
ghost use Rattle.cpl_wires.specs.Tables.{HavePieces, HaveFacePieces, strip_size, strip_with, face_strip_with};

use crate::pairs::{face_strips_by_pieces, pair_number, strips_by_pieces};
use cpl_group::Group;
use cpl_strip::{FaceStrip, Strip};
use cpl_xgrid::Groups;
use std::alloc::{AllocError, Global};
use std::marker::Model;

// Strips for so many fields, and their numbers by their pieces. Contracts see the strips.
#[derive(Drop)]
pub(crate) struct Halo {
    group: Group,
    numbers: Groups<u32>,
}

impl Model for Halo {
    ghost use Rattle.cpl_group.specs.Parts.{Strips};
    ghost use Rattle.cpl_wires.specs.Tables.{AreFound};

    ghost Value = { Strips };

    ghost view = { λ a. record { strips = a.group.strips; fields = a.group.fields } };

    ghost invariant = { λ a. AreFound a.group.strips a.numbers };
}

impl Halo {
    pub(crate) fn new(alloc: Global, strips: Vec<Strip>, fields: u32) -> Result<Halo, AllocError>
        requires some { 1 ≤ fields }
        requires fields { fields ≤ 32 }
        requires strips { All IsStrip strips.items }
        requires pieces { HavePieces strips.items }
        requires few { length strips.items ≤ MOST_EXCHANGE_CELLS }
        ensures strips { IfOk result (λ halo. halo.strips ≡ strips.items) }
        ensures fields { IfOk result (λ halo. halo.fields ≡ fields) }
    {
        let numbers = strips_by_pieces(alloc, &strips)?;
        let group = Group::new(strips, fields)?;
        Ok(Halo { group, numbers })
    }

    // The strip of two pieces, if they have one.
    pub(crate) fn strip(&self, from: u32, to: u32) -> Option<&Strip>
        requires from { from < 64 }
        requires to { to < 64 }
        ensures { option_copied result ≡ strip_with self.now.strips from to }
    {
        match self.numbers.at(pair_number(from, to)).first() {
            Some(n) => Some(self.group.strip(*n)),
            None => None,
        }
    }

    // How many numbers the fields have at the places of the strip of two pieces: none without a strip.
    pub(crate) fn len(&self, from: u32, to: u32) -> usize
        requires from { from < 64 }
        requires to { to < 64 }
        ensures { result ≡ strip_size (strip_with self.now.strips from to) * self.now.fields }
    {
        match self.numbers.at(pair_number(from, to)).first() {
            Some(n) => self.group.len(*n),
            None => 0,
        }
    }
}

// Face strips, and their numbers by their pieces. Contracts see the face strips.
#[derive(Drop)]
pub(crate) struct Seams {
    strips: Vec<FaceStrip>,
    numbers: Groups<u32>,
}

impl Model for Seams {
    ghost use Rattle.std.specs.Prelude.{List};
    ghost use Rattle.cpl_strip.specs.declared.parts.FaceStrip.{FaceStrip as FaceStripItems};
    ghost use Rattle.cpl_wires.specs.Tables.{AreFacesFound};

    ghost Value = { List FaceStripItems };

    ghost view = { λ a. a.strips.items };

    ghost invariant = { λ a. AreFacesFound a.strips.items a.numbers };
}

impl Seams {
    pub(crate) fn new(alloc: Global, strips: Vec<FaceStrip>) -> Result<Seams, AllocError>
        requires pieces { HaveFacePieces strips.items }
        requires few { length strips.items ≤ MOST_EXCHANGE_CELLS }
        ensures { IfOk result (λ seams. seams ≡ strips.items) }
    {
        let numbers = face_strips_by_pieces(alloc, &strips)?;
        Ok(Seams { strips, numbers })
    }

    // The face strip of two pieces, if they have one.
    pub(crate) fn strip(&self, from: u32, to: u32) -> Option<&FaceStrip>
        requires from { from < 64 }
        requires to { to < 64 }
        ensures { option_copied result ≡ face_strip_with self.now from to }
    {
        match self.numbers.at(pair_number(from, to)).first() {
            Some(n) => Some(&self.strips[*n as usize]),
            None => None,
        }
    }
}
