// A piece of the air.
ghost use Rattle.std.specs.Prelude.{◌≡◌, ℕ, pos, IfOk};
ghost use Rattle.cpl_layout.specs.Owners.{IsPiece};
ghost use Rattle.cpl_field.specs.Spots.{IsSameShape};
ghost use Rattle.cpl_atmos.specs.Sweeps.{AreAirAreas, AreAmounts, AreCellAmounts, Computes, IsInner, IsRim, Stores, value_at};

use crate::areas::Areas;
use crate::edge::sweep_edge;
use crate::inner::sweep_inner;
use crate::store::store;
use cpl_field::Field;
use cpl_layout::Piece;
use std::alloc::{AllocError, Global};
use std::marker::Model;

/// The air of one piece, for a step of its diffusion. Contracts see the areas, and an amount that was computed for each cell.
///
/// A step is `interior`, which needs no hole, `rim`, which needs the holes of depth 1 filled, and `finish`. What is computed
/// stands beside the field until `finish`. A side is a wall where the area of its hole is 0, as in a hole that nothing filled.
/// The formula is defined by this project.
#[derive(Drop)]
pub struct AirPiece {
    areas: Areas,
    souths: Vec<i64>,
    values: Vec<i64>,
}

impl Model for AirPiece {
    ghost use Rattle.cpl_atmos.specs.Sweeps.{AirNumbers};
    ghost use Rattle.cpl_atmos.specs.Rows.{AreLists};

    ghost Value = { AirNumbers };

    ghost view = { λ a. record { area = a.areas; values = a.values.items } };

    ghost invariant = { λ a. AreLists a.areas a.souths.items a.values.items };
}

impl AirPiece {
    /// A piece with these areas of its cells, above 0, and of the holes of its halo, one cell wide. It takes memory for a copy
    /// of them, for the divisors of its faces and for the amounts, which are 0 at first.
    pub fn new(alloc: Global, piece: &Piece, area: &Field) -> Result<AirPiece, AllocError>
        requires piece { IsPiece piece.now }
        requires columns { area.now.nx ≡ piece.now.nx }
        requires rows { area.now.ny ≡ piece.now.ny }
        requires width { area.now.width ≡ 1 }
        requires areas { AreAirAreas area.now }
        ensures area { IfOk result (λ air. air.area ≡ area.now) }
        ensures values { IfOk result (λ air. (i j : ℕ) → value_at air i j ≡ pos 0) }
    {
        let areas = Areas::new(alloc, piece, area)?;
        Ok(AirPiece {
            areas,
            souths: vec![in alloc; 0; piece.nx as usize]?,
            values: vec![in alloc; 0; (piece.nx * piece.ny) as usize]?,
        })
    }

    /// Computes the amounts after a step of the cells with no side on the piece's edge. It reads no hole, and takes no memory.
    pub fn interior(&mut self, x: &Field)
        requires shape { IsSameShape self.old.area x.now }
        requires amounts { AreCellAmounts x.now }
        ensures area { self.new.area ≡ self.old.area }
        ensures values { Computes self.old.area x.now (IsInner self.old.area) self.old.values self.new.values }
    {
        sweep_inner(&self.areas, x, &mut self.souths, &mut self.values);
    }

    /// Computes those of the cells with some side on the piece's edge. It takes no memory.
    pub fn rim(&mut self, x: &Field)
        requires shape { IsSameShape self.old.area x.now }
        requires amounts { AreAmounts x.now }
        ensures area { self.new.area ≡ self.old.area }
        ensures values { Computes self.old.area x.now (IsRim self.old.area) self.old.values self.new.values }
    {
        sweep_edge(&self.areas, x, &mut self.values);
    }

    /// Sets the cells of a field to the computed amounts. It takes no memory.
    pub fn finish(&self, x: &mut Field)
        requires { IsSameShape self.now.area x.old }
        ensures { Stores self.now x.old x.new }
    {
        store(&self.areas, &self.values, x);
    }
}
