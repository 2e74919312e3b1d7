// One layer of a piece.
ghost use Rattle.std.specs.Prelude.{◌≡◌, ◌*◌, ◌<◌, ◌≤◌, ℕ, length, pos, IfOk, slice_index_or};
ghost use Rattle.cpl_layout.specs.Owners.{IsPiece};
ghost use Rattle.cpl_field.specs.Crossings.{IsFaceNumber, IsSideOf, SideAt, outward_at};
ghost use Rattle.cpl_field.specs.Spots.{Spot, CellAt, HoleAt, IsSpot, IsSameShape, number_at};
ghost use Rattle.cpl_transport.specs.Salts.{nothing};
ghost use Rattle.cpl_ocean.specs.Layers.{AreAlike, IsEmptyLayer, IsLayerOf, SetsCell, salty_at};
ghost use Rattle.cpl_ocean.specs.Numbers.{DrivesLayer};
ghost use Rattle.cpl_ocean.specs.Pieces.{ChangesField, ChangesSide, LoadsCells, LoadsHoles, SetsHole, field_in};
ghost use Rattle.cpl_ocean.specs.Sweeps.{CanSweep, IsBasin, SweepsLayer};
ghost use Rattle.cpl_ocean.specs.Zones.{IsIn};

use crate::basin::Basin;
use crate::fields::Fields;
use crate::loads::{load_cells, load_holes};
use crate::numbers::drive;
use crate::sweep::sweep;
use crate::zone::Zone;
use cpl_field::{Faces, Field};
use cpl_ice::{NOTHING, Salty};
use cpl_layout::Piece;
use cpl_mosaic::Side;
use std::alloc::{AllocError, Global};
use std::marker::Model;

/// A layer's fields, and what the transport leaves in each of its cells: the rows one after another. It has room for one row of what
/// moves through faces.
#[derive(Drop)]
pub(crate) struct Layer {
    pub(crate) fields: Fields,
    pub(crate) left: Vec<Salty>,
    souths: Vec<Salty>,
}

impl Model for Layer {
    ghost use Rattle.std.specs.Prelude.{◌≡◌, length};
    ghost use Rattle.cpl_ocean.specs.Layers.{LayerNumbers};

    ghost Value = { LayerNumbers };

    ghost view = { λ a. record { fields = a.fields; left = a.left.items } };

    ghost invariant = { λ a. length a.souths.items ≡ a.fields.water.nx };
}

impl Layer {
    /// A layer with nothing in it.
    pub(crate) fn new(alloc: Global, piece: &Piece) -> Result<Layer, AllocError>
        requires { IsPiece piece.now }
        ensures { IfOk result (IsEmptyLayer piece.now) }
    {
        Ok(Layer {
            fields: Fields {
                water: Field::new(alloc, piece, 2)?,
                heat: Field::new(alloc, piece, 2)?,
                salt: Field::new(alloc, piece, 2)?,
                faces: Faces::new(alloc, piece)?,
            },
            left: vec![in alloc; NOTHING; (piece.nx * piece.ny) as usize]?,
            souths: vec![in alloc; NOTHING; piece.nx as usize]?,
        })
    }

    /// The water of a cell.
    pub(crate) fn water(&self, i: u32, j: u32) -> i64
        requires { IsSpot self.now.fields.water (CellAt i j) }
        ensures { result ≡ number_at self.now.fields.water (CellAt i j) }
    {
        self.fields.water.get(i, j)
    }

    /// The water of a hole next to the piece.
    pub(crate) fn water_beside(&self, side: Side, at: u32) -> i64
        requires { IsSpot self.now.fields.water (HoleAt side at 1) }
        ensures { result ≡ number_at self.now.fields.water (HoleAt side at 1) }
    {
        self.fields.water.halo(side, at, 1)
    }

    /// What the transport left in a cell, by its place.
    pub(crate) fn left_at(&self, place: usize) -> Salty
        requires { place < length self.now.left }
        ensures { result ≡ slice_index_or self.now.left place nothing }
    {
        self.left[place]
    }

    /// Sets a cell.
    pub(crate) fn set(&mut self, i: u32, j: u32, it: Salty)
        requires alike { AreAlike self.old.fields }
        requires cell { IsSpot self.old.fields.water (CellAt i j) }
        ensures fields { SetsCell self.old.fields self.new.fields i j it }
        ensures left { self.new.left ≡ self.old.left }
    {
        self.fields.set(i, j, it);
    }

    /// A cell.
    pub(crate) fn get(&self, i: u32, j: u32) -> Salty
        requires alike { AreAlike self.now.fields }
        requires cell { IsSpot self.now.fields.water (CellAt i j) }
        ensures { result ≡ salty_at self.now.fields (CellAt i j) }
    {
        self.fields.get(i, j)
    }

    /// Water (0), heat (1) or salt (2).
    pub(crate) fn field(&self, n: u32) -> &Field
        requires { n < 3 }
        ensures { result.now ≡ field_in self.now.fields n }
    {
        match n {
            0 => &self.fields.water,
            1 => &self.fields.heat,
            _ => &self.fields.salt,
        }
    }

    /// The numbers of the faces.
    pub(crate) fn faces(&self) -> &Faces
        ensures { result.now ≡ self.now.fields.faces }
    {
        &self.fields.faces
    }

    /// Sets the number of the face of a side of a cell.
    pub(crate) fn set_face(&mut self, i: u32, j: u32, side: Side, x: i64)
        requires side { IsSideOf self.old.fields.faces (record { i = i; j = j; side = side }) }
        requires range { IsFaceNumber x }
        ensures { ChangesSide i j side x self.old self.new }
    {
        self.fields.faces.set_side(i, j, side, x);
    }

    /// Computes what the transport leaves in the cells of a zone.
    pub(crate) fn transport(&mut self, basin: &Basin, slope: u32, zone: Zone)
        requires { CanSweep basin.now slope self.old }
        ensures { SweepsLayer basin.now slope (IsIn zone basin.now.area) self.old self.new }
    {
        sweep(
            basin,
            slope,
            &self.fields,
            zone,
            &mut self.souths,
            &mut self.left,
        );
    }

    /// Sets the numbers of the faces to what they are after a step.
    pub(crate) fn drive(&mut self, basin: &Basin, slope: u32)
        requires slope { slope ≤ 40 }
        requires basin { IsBasin basin.now }
        requires layer { IsLayerOf basin.now.area self.old }
        ensures { DrivesLayer basin.now.area (number_at basin.now.heights) slope self.old self.new }
    {
        drive(basin, slope, &mut self.fields.faces);
    }

    /// Sets the cells of the water (0), heat (1) or salt (2).
    pub(crate) fn load(&mut self, n: u32, from: &Field, nx: u32, ny: u32)
        requires quantity { n < 3 }
        requires columns { from.now.nx ≡ nx }
        requires rows { from.now.ny ≡ ny }
        requires alike { AreAlike self.old.fields }
        requires shape { IsSameShape from.now self.old.fields.water }
        ensures { ChangesField n (LoadsCells from.now) self.old self.new }
    {
        match n {
            0 => load_cells(from, nx, ny, &mut self.fields.water),
            1 => load_cells(from, nx, ny, &mut self.fields.heat),
            _ => load_cells(from, nx, ny, &mut self.fields.salt),
        }
    }

    /// Sets one of its holes.
    pub(crate) fn set_hole(&mut self, n: u32, side: Side, at: u32, depth: u32, x: i64)
        requires quantity { n < 3 }
        requires alike { AreAlike self.old.fields }
        requires hole { IsSpot self.old.fields.water (HoleAt side at depth) }
        ensures { ChangesField n (SetsHole side at depth x) self.old self.new }
    {
        match n {
            0 => self.fields.water.set_halo(side, at, depth, x),
            1 => self.fields.heat.set_halo(side, at, depth, x),
            _ => self.fields.salt.set_halo(side, at, depth, x),
        }
    }

    /// Sets all of its holes.
    pub(crate) fn load_halo(&mut self, n: u32, from: &Field, nx: u32, ny: u32)
        requires quantity { n < 3 }
        requires columns { from.now.nx ≡ nx }
        requires rows { from.now.ny ≡ ny }
        requires width { from.now.width ≡ 2 }
        requires alike { AreAlike self.old.fields }
        requires shape { IsSameShape from.now self.old.fields.water }
        ensures { ChangesField n (LoadsHoles from.now) self.old self.new }
    {
        match n {
            0 => load_holes(from, nx, ny, &mut self.fields.water),
            1 => load_holes(from, nx, ny, &mut self.fields.heat),
            _ => load_holes(from, nx, ny, &mut self.fields.salt),
        }
    }
}
