// The fields of one layer of a piece.
ghost use Rattle.std.specs.Prelude.{◌≡◌, ℕ, ◌≤◌, pos, IfOk};
ghost use Rattle.cpl_layout.specs.Owners.{IsPiece};
ghost use Rattle.cpl_field.specs.Crossings.{SideAt, outward_at};
ghost use Rattle.cpl_field.specs.Spots.{Spot, CellAt, IsSpot, IsSameShape, number_at, out_from};
ghost use Rattle.cpl_ice.specs.declared.parts.Salty.{Salty};
ghost use Rattle.cpl_ocean.specs.Layers.{AreAlike, SetsCell, salty_at};

use cpl_field::{Faces, Field};
use cpl_ice::Salty;
use cpl_layout::Piece;
use cpl_mosaic::Side;
use std::alloc::{AllocError, Global};

/// Water, heat and salt of a layer's cells and holes, two cells wide, and the numbers of its faces.
#[derive(Drop)]
pub struct Fields {
    pub(crate) water: Field,
    pub(crate) heat: Field,
    pub(crate) salt: Field,
    pub(crate) faces: Faces,
}

impl Fields {
    /// A cell.
    #[inline(always)]
    pub(crate) fn get(&self, i: u32, j: u32) -> Salty
        requires alike { AreAlike self.now }
        requires cell { IsSpot self.now.water (CellAt i j) }
        ensures { result ≡ salty_at self.now (CellAt i j) }
    {
        Salty {
            water: self.water.get(i, j),
            heat: self.heat.get(i, j),
            salt: self.salt.get(i, j),
        }
    }

    /// What lies so many steps out through a side of a cell: a cell or a hole.
    #[inline(always)]
    pub(crate) fn at(&self, i: u32, j: u32, side: Side, depth: u32) -> Salty
        requires alike { AreAlike self.now }
        requires cell { IsSpot self.now.water (CellAt i j) }
        requires some { 1 ≤ depth }
        requires depth { depth ≤ self.now.water.width }
        ensures { result ≡ salty_at self.now (out_from self.now.water i j side depth) }
    {
        Salty {
            water: self.water.at(i, j, side, depth),
            heat: self.heat.at(i, j, side, depth),
            salt: self.salt.at(i, j, side, depth),
        }
    }

    /// Sets a cell.
    pub(crate) fn set(&mut self, i: u32, j: u32, it: Salty)
        requires alike { AreAlike self.old }
        requires cell { IsSpot self.old.water (CellAt i j) }
        ensures { SetsCell self.old self.new i j it }
    {
        self.water.set(i, j, it.water);
        self.heat.set(i, j, it.heat);
        self.salt.set(i, j, it.salt);
    }
}
