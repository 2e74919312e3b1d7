// A piece of the ocean.
ghost use Rattle.std.specs.Prelude.{◌≡◌, ℕ, ◌+◌, ◌*◌, ◌<◌, ◌≤◌, length, IfOk};
ghost use Rattle.cpl_layout.specs.Owners.{IsPiece};
ghost use Rattle.cpl_field.specs.Crossings.{IsFaceNumber};
ghost use Rattle.cpl_field.specs.Spots.{Spot, CellAt, HoleAt, IsSpot, IsSameShape};
ghost use Rattle.cpl_fixed.specs.declared.limits.TheConstants.{MOST_LAYERS};
ghost use Rattle.cpl_transport.specs.Cuts.{cut_of, uncut};
ghost use Rattle.cpl_transport.specs.Salts.{IsSalty, joined};
ghost use Rattle.cpl_ocean.specs.Columns.{HasColumn, IsCell, IsClose};
ghost use Rattle.cpl_ocean.specs.Flows.{AreOceanAreas};
ghost use Rattle.cpl_ocean.specs.Layers.{IsEmptyLayer, layer_at, salty_at};
ghost use Rattle.cpl_ocean.specs.Mixed.{IsAllLeft};
ghost use Rattle.cpl_ocean.specs.Sweeps.{IsInner, IsRim};
ghost use Rattle.cpl_ocean.specs.Zones.{IsIn, IsRead};
ghost use Rattle.cpl_ocean.specs.Pieces.{ChangesCell, ChangesField, ChangesLayer, ChangesSide, Finishes, HasAmounts, IsEmptyOcean, LoadsCells, LoadsHoles, SetsHole, Transports, field_in, fields_at};

use crate::basin::Basin;
use crate::heights::raise;
use crate::layer::Layer;
use crate::mixing::store;
use crate::sweeps::{drive_layers, transport};
use crate::zone::Zone;
use cpl_field::{Faces, Field};
use cpl_fixed::Rates;
use cpl_ice::{Salty, ToIce};
use cpl_layout::Piece;
use cpl_mosaic::Side;
use cpl_transport::{cut, joined};
use std::alloc::{AllocError, Global};
use std::marker::Model;

/// The ocean of one piece, for its steps and for what its top layer takes and cuts off. Contracts see the areas, and of each
/// layer, the top one first, the water, heat and salt of its cells and holes, the numbers of its faces, and what the transport
/// has left in each cell beside them.
///
/// A step is `interior`, which needs no hole, `rim`, which needs the holes of both depths filled, and `finish`. What is computed
/// stands beside the fields until `finish`. A side is a wall where the area of its cell or of what lies across it is 0, as in a
/// hole that nothing filled. The formulas are defined by this project.
#[derive(Drop)]
pub struct OceanPiece {
    basin: Basin,
    layers: Vec<Layer>,
}

impl Model for OceanPiece {
    ghost use Rattle.cpl_ocean.specs.Pieces.{IsOcean, OceanNumbers};

    ghost Value = { OceanNumbers };

    ghost view = { λ a. record { area = a.basin.area; layers = a.layers.items } };

    ghost invariant = { λ a. IsOcean a.basin a.layers.items };
}

// So many layers with nothing in them.
fn empty_layers(alloc: Global, piece: &Piece, layers: u32) -> Result<Vec<Layer>, AllocError>
    requires piece { IsPiece piece.now }
    ensures count { IfOk result (λ list. length list.items ≡ layers) }
    ensures each { IfOk result (λ list. (l : ℕ) → l < layers → IsEmptyLayer piece.now (layer_at list.items l)) }
{
    let mut list = Vec::with_capacity(alloc, layers as usize)?;
    for _n in 0..layers {
        list.push(Layer::new(alloc, piece)?)?;
    }
    Ok(list)
}

impl OceanPiece {
    /// A piece with these areas of its cells and of the holes of its halo, two cells wide, and so many layers with nothing in
    /// them. It takes all the memory of the piece.
    pub fn new(
        alloc: Global,
        piece: &Piece,
        area: &Field,
        layers: u32,
    ) -> Result<OceanPiece, AllocError>
        requires piece { IsPiece piece.now }
        requires columns { area.now.nx ≡ piece.now.nx }
        requires rows { area.now.ny ≡ piece.now.ny }
        requires width { area.now.width ≡ 2 }
        requires areas { AreOceanAreas area.now }
        requires layers { (1 ≤ layers) × (layers ≤ MOST_LAYERS) }
        ensures { IfOk result (IsEmptyOcean piece.now area.now layers) }
    {
        Ok(OceanPiece {
            basin: Basin {
                nx: piece.nx,
                ny: piece.ny,
                area: area.copy(alloc)?,
                heights: Field::new(alloc, piece, 2)?,
            },
            layers: empty_layers(alloc, piece, layers)?,
        })
    }

    /// The water (0), heat (1) or salt (2) of a layer's cells and holes.
    pub fn field(&self, layer: u32, n: u32) -> &Field
        requires layer { layer < length self.now.layers }
        requires quantity { n < 3 }
        ensures value { result.now ≡ field_in (fields_at self.now layer) n }
        ensures shape { IsSameShape self.now.area result.now }
    {
        let layer = &self.layers[layer as usize];
        layer.field(n)
    }

    /// The numbers of a layer's faces.
    pub fn faces(&self, layer: u32) -> &Faces
        requires { layer < length self.now.layers }
        ensures value { result.now ≡ (fields_at self.now layer).faces }
        ensures columns { result.now.nx ≡ self.now.area.nx }
        ensures rows { result.now.ny ≡ self.now.area.ny }
    {
        let layer = &self.layers[layer as usize];
        layer.faces()
    }

    /// Sets the cells of a layer's water (0), heat (1) or salt (2) to those of a field, and leaves the holes.
    pub fn load(&mut self, layer: u32, n: u32, field: &Field)
        requires layer { layer < length self.old.layers }
        requires quantity { n < 3 }
        requires shape { IsSameShape self.old.area field.now }
        ensures { ChangesLayer layer (ChangesField n (LoadsCells field.now)) self.old self.new }
    {
        let (nx, ny) = (self.basin.nx, self.basin.ny);
        self.layers[layer as usize].load(n, field, nx, ny);
    }

    /// Sets the holes of a layer's water (0), heat (1) or salt (2) to those of a field, and leaves the cells.
    pub fn load_halo(&mut self, layer: u32, n: u32, field: &Field)
        requires layer { layer < length self.old.layers }
        requires quantity { n < 3 }
        requires shape { IsSameShape self.old.area field.now }
        ensures { ChangesLayer layer (ChangesField n (LoadsHoles field.now)) self.old self.new }
    {
        let (nx, ny) = (self.basin.nx, self.basin.ny);
        self.layers[layer as usize].load_halo(n, field, nx, ny);
    }

    /// Sets one hole of a layer's water (0), heat (1) or salt (2), where it is taken. It takes no memory.
    pub fn set_hole(&mut self, layer: u32, n: u32, side: Side, at: u32, depth: u32, x: i64)
        requires layer { layer < length self.old.layers }
        requires quantity { n < 3 }
        requires hole { IsSpot self.old.area (HoleAt side at depth) }
        ensures { ChangesLayer layer (ChangesField n (SetsHole side at depth x)) self.old self.new }
    {
        self.layers[layer as usize].set_hole(n, side, at, depth, x);
    }

    /// Sets the number of the face of a side of a cell of a layer, as the cell sees it outward.
    pub fn set_face(&mut self, layer: u32, i: u32, j: u32, side: Side, x: i64)
        requires layer { layer < length self.old.layers }
        requires cell { IsSpot self.old.area (CellAt i j) }
        requires range { IsFaceNumber x }
        ensures { ChangesLayer layer (ChangesSide i j side x) self.old self.new }
    {
        self.layers[layer as usize].set_face(i, j, side, x);
    }

    // Computes what the transport leaves in the cells of a zone.
    fn transport(&mut self, slope: u32, zone: Zone)
        requires slope { slope ≤ 40 }
        requires amounts { HasAmounts self.old }
        requires columns { (spot : Spot) → IsSpot self.old.area spot → IsRead zone spot → HasColumn self.old.layers spot }
        ensures { Transports slope (IsIn zone self.old.area) self.old self.new }
    {
        raise(&mut self.basin, zone, &self.layers);
        transport(&self.basin, slope, zone, &mut self.layers);
    }

    /// Computes what the transport leaves in the cells with at least two cells of the piece between them and each of its edges.
    /// It reads no hole, and takes no memory.
    pub fn interior(&mut self, rates: &Rates)
        requires slope { rates.now.slope ≤ 40 }
        requires amounts { HasAmounts self.old }
        requires columns { (spot : Spot) → IsSpot self.old.area spot → IsCell spot → HasColumn self.old.layers spot }
        ensures { Transports rates.now.slope (IsInner self.old.area) self.old self.new }
    {
        self.transport(rates.slope, Zone::Inner);
    }

    /// Computes what it leaves in the other cells. It takes no memory.
    pub fn rim(&mut self, rates: &Rates)
        requires slope { rates.now.slope ≤ 40 }
        requires amounts { HasAmounts self.old }
        requires columns { (spot : Spot) → IsSpot self.old.area spot → IsClose spot → HasColumn self.old.layers spot }
        ensures { Transports rates.now.slope (IsRim self.old.area) self.old self.new }
    {
        self.transport(rates.slope, Zone::Rim);
    }

    /// Ends the step: the faces get their numbers, and the cells what the vertical exchange makes of what the transport left in
    /// them. It takes no memory.
    pub fn finish(&mut self, rates: &Rates)
        requires slope { rates.now.slope ≤ 40 }
        requires mix { (2 ≤ rates.now.mix) × (rates.now.mix ≤ 40) }
        requires columns { (spot : Spot) → IsSpot self.old.area spot → IsClose spot → HasColumn self.old.layers spot }
        requires left { IsAllLeft self.old.area self.old.layers }
        ensures { Finishes rates.now.slope rates.now.mix self.old self.new }
    {
        // The faces read the heights that the rim does.
        raise(&mut self.basin, Zone::Rim, &self.layers);
        drive_layers(&self.basin, rates.slope, &mut self.layers);
        let (nx, ny) = (self.basin.nx, self.basin.ny);
        store(&self.basin.area, rates.mix, &mut self.layers, nx, ny);
    }

    /// Takes what comes from the ice into the top layer.
    pub fn add(&mut self, i: u32, j: u32, flight: Salty)
        requires cell { IsSpot self.old.area (CellAt i j) }
        requires some { 1 ≤ length self.old.layers }
        requires here { IsSalty (salty_at (fields_at self.old 0) (CellAt i j)) }
        requires flight { IsSalty flight }
        requires together { IsSalty (joined (salty_at (fields_at self.old 0) (CellAt i j)) flight) }
        ensures { ChangesLayer 0 (ChangesCell i j (joined (salty_at (fields_at self.old 0) (CellAt i j)) flight)) self.old self.new }
    {
        let here = self.layers[0].get(i, j);
        self.layers[0].set(i, j, joined(here, flight));
    }

    /// Cuts off what leaves the top layer for the ice at the end of a coupling step.
    pub fn cut(&mut self, i: u32, j: u32) -> ToIce
        requires cell { IsSpot self.old.area (CellAt i j) }
        requires some { 1 ≤ length self.old.layers }
        requires here { IsSalty (salty_at (fields_at self.old 0) (CellAt i j)) }
        ensures flight { result ≡ cut_of (salty_at (fields_at self.old 0) (CellAt i j)) }
        ensures left { ChangesLayer 0 (ChangesCell i j (uncut (salty_at (fields_at self.old 0) (CellAt i j)))) self.old self.new }
    {
        let mut top = self.layers[0].get(i, j);
        let flight = cut(&mut top);
        self.layers[0].set(i, j, top);
        flight
    }
}
