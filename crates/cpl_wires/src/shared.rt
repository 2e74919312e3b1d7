// What two pieces share: exchange cells, outlets, cells and halos.
ghost use Rattle.std.specs.Prelude.{◌≡◌, ◌-◌, ◌*◌, ◌<◌, ◌≤◌, IfOk, length};
ghost use Rattle.std.specs.Option.{option_copied};
ghost use Rattle.cpl_fixed.specs.declared.limits.TheConstants.{MOST_EXCHANGE_CELLS};
ghost use Rattle.cpl_fixed.specs.declared.words.Component.TheVariants.{Atmos, Land, Ice, Ocean};
ghost use Rattle.cpl_wires.specs.Settings.{Setting, piece_count, base_of};
ghost use Rattle.cpl_wires.specs.Purposes.{giver, receiver};
ghost use Rattle.cpl_wires.specs.Pairs.{carried, has_edge, land_rows_between, ice_rows_between, outlets_between, cells_between, air_halo, ocean_halo, ocean_faces};
ghost use Rattle.cpl_wires.specs.declared.parts.Purpose.TheVariants.{OceanHalo};
ghost use Rattle.cpl_wires.specs.Edges.{length_for, length_of, part_count};
ghost use Rattle.cpl_wires.specs.Laws.{IsOf, IsEdge};
ghost use Rattle.cpl_wires.specs.Tables.{AreRowsOf, AreHalosOf, strip_if, face_strip_if, strip_for, face_strip_for, halo_strips, sea_faces, rows_by_pieces, outlets_by_pieces, cells_by_pieces, pair_number};

use crate::halos::{Halo, Seams};
use crate::pairs::{by_pieces, cell_pairs, outlet_pairs, pair_number, row_pairs};
use crate::parts::{Edge, Purpose};
use crate::pieces::Pieces;
use cpl_fixed::Component;
use cpl_strip::{FaceStrip, Strip, face_strips, strips};
use cpl_xgrid::{Groups, Surface};
use std::alloc::{AllocError, Global};
use std::marker::Model;

// Exchange cells, outlets and cells by pairs of pieces.
#[derive(Drop)]
struct Rows {
    land: Groups<u32>,
    ocean: Groups<u32>,
    outlets: Groups<u32>,
    cells: Groups<u32>,
}

// The halos of the air and of the ocean, and the faces along the edges of the ocean's pieces.
#[derive(Drop)]
struct Halos {
    air: Halo,
    ocean: Halo,
    seams: Seams,
}

// A setting with what its pieces share.
#[derive(Drop)]
pub(crate) struct Shared {
    pieces: Pieces,
    rows: Rows,
    halos: Halos,
}

impl Model for Shared {
    ghost use Rattle.cpl_wires.specs.Settings.{Setting};
    ghost use Rattle.cpl_wires.specs.Tables.{IsShared};

    ghost Value = { Setting };

    ghost view = { λ a. a.pieces };

    ghost invariant = { λ a. IsShared a.pieces a.rows.land a.rows.ocean a.rows.outlets a.rows.cells a.halos.air a.halos.ocean a.halos.seams };
}

// The exchange cells of the land list, by the pieces of the air and of the land.
fn land_rows_by_pieces(alloc: Global, pieces: &Pieces) -> Result<Groups<u32>, AllocError>
    ensures { IfOk result (λ groups. groups ≡ rows_by_pieces pieces.now Surface.Land) }
{
    let pairs = row_pairs(alloc, pieces.grid().xgrid.rows(Surface::Land))?;
    let air = pieces.layout(Component::Atmos);
    let land = pieces.layout(Component::Land);
    by_pieces(alloc, air, land, &pairs)
}

// The exchange cells of the ocean list, by the pieces of the air and of the ice.
fn ocean_rows_by_pieces(alloc: Global, pieces: &Pieces) -> Result<Groups<u32>, AllocError>
    ensures { IfOk result (λ groups. groups ≡ rows_by_pieces pieces.now Surface.Ocean) }
{
    let pairs = row_pairs(alloc, pieces.grid().xgrid.rows(Surface::Ocean))?;
    let air = pieces.layout(Component::Atmos);
    let ice = pieces.layout(Component::Ice);
    by_pieces(alloc, air, ice, &pairs)
}

// The outlets, by the pieces of the land and of the ice.
fn outlets_by_pieces(alloc: Global, pieces: &Pieces) -> Result<Groups<u32>, AllocError>
    ensures { IfOk result (λ groups. groups ≡ outlets_by_pieces pieces.now) }
{
    let pairs = outlet_pairs(alloc, pieces.grid().xgrid.outlets())?;
    let land = pieces.layout(Component::Land);
    let ice = pieces.layout(Component::Ice);
    by_pieces(alloc, land, ice, &pairs)
}

// The cells of the ocean's mosaic, by the pieces of the ice and of the ocean.
fn cells_by_pieces(alloc: Global, pieces: &Pieces) -> Result<Groups<u32>, AllocError>
    ensures { IfOk result (λ groups. groups ≡ cells_by_pieces pieces.now) }
{
    let pairs = cell_pairs(alloc, &pieces.grid().ocean.mosaic)?;
    let ice = pieces.layout(Component::Ice);
    let ocean = pieces.layout(Component::Ocean);
    by_pieces(alloc, ice, ocean, &pairs)
}

// The halos of the air, of heat and vapour.
fn air_halo(alloc: Global, pieces: &Pieces) -> Result<Halo, AllocError>
    ensures strips { IfOk result (λ halo. halo.strips ≡ halo_strips pieces.now Atmos 1) }
    ensures fields { IfOk result (λ halo. halo.fields ≡ 2) }
{
    let grid = pieces.grid();
    let layout = pieces.layout(Component::Atmos);
    let found = strips(alloc, layout, &grid.air.mosaic, 1)?;
    Halo::new(alloc, found, 2)
}

// The halos of the ocean, of water, heat and salt in each layer.
fn ocean_halo(alloc: Global, pieces: &Pieces) -> Result<Halo, AllocError>
    ensures strips { IfOk result (λ halo. halo.strips ≡ halo_strips pieces.now Ocean 2) }
    ensures fields { IfOk result (λ halo. halo.fields ≡ 3 * pieces.now.grid.column.layers) }
{
    let grid = pieces.grid();
    let layout = pieces.layout(Component::Ocean);
    let found = strips(alloc, layout, &grid.ocean.mosaic, 2)?;
    Halo::new(alloc, found, 3 * grid.column.layers)
}

// The faces along the edges of the ocean's pieces.
fn ocean_seams(alloc: Global, pieces: &Pieces) -> Result<Seams, AllocError>
    ensures { IfOk result (λ seams. seams ≡ sea_faces pieces.now) }
{
    let grid = pieces.grid();
    let layout = pieces.layout(Component::Ocean);
    let found = face_strips(alloc, layout, &grid.ocean.mosaic)?;
    Seams::new(alloc, found)
}

// What pieces share of rows, outlets and cells.
fn rows_of(alloc: Global, pieces: &Pieces) -> Result<Rows, AllocError>
    ensures { IfOk result (λ rows. AreRowsOf pieces.now rows.land rows.ocean rows.outlets rows.cells) }
{
    let land = land_rows_by_pieces(alloc, pieces)?;
    let ocean = ocean_rows_by_pieces(alloc, pieces)?;
    let outlets = outlets_by_pieces(alloc, pieces)?;
    let cells = cells_by_pieces(alloc, pieces)?;
    Ok(Rows {
        land,
        ocean,
        outlets,
        cells,
    })
}

// The halos of all pieces.
fn halos_of(alloc: Global, pieces: &Pieces) -> Result<Halos, AllocError>
    ensures { IfOk result (λ halos. AreHalosOf pieces.now halos.air halos.ocean halos.seams) }
{
    let air = air_halo(alloc, pieces)?;
    let ocean = ocean_halo(alloc, pieces)?;
    let seams = ocean_seams(alloc, pieces)?;
    Ok(Halos { air, ocean, seams })
}

impl Shared {
    pub(crate) fn new(alloc: Global, pieces: Pieces) -> Result<Shared, AllocError>
        ensures { IfOk result (λ shared. shared ≡ pieces) }
    {
        // The contracts of these two have the rules of the setting.
        let _names = pieces.names();
        let _grid = pieces.grid();
        let rows = rows_of(alloc, &pieces)?;
        let halos = halos_of(alloc, &pieces)?;
        Ok(Shared {
            pieces,
            rows,
            halos,
        })
    }

    pub(crate) fn pieces(&self) -> &Pieces
        ensures { result.now ≡ self.now }
    {
        &self.pieces
    }

    // The number of a piece among those of its component.
    fn place(&self, component: Component, piece: u32) -> u32
        requires { IsOf self.now 0 (Some component) piece }
        ensures place { result ≡ piece - base_of self.now component }
        ensures few { result < 64 }
    {
        let _few = self.pieces.pieces(component);
        piece - self.pieces.base(component)
    }

    // The number of a pair of pieces.
    fn pair(&self, one: Component, first: u32, other: Component, second: u32) -> u32
        requires first { IsOf self.now 0 (Some one) first }
        requires second { IsOf self.now 0 (Some other) second }
        ensures number { result ≡ pair_number (first - base_of self.now one) (second - base_of self.now other) }
        ensures few { result < 4_096 }
    {
        pair_number(self.place(one, first), self.place(other, second))
    }

    // The exchange cells between two pieces, in the order of the file.
    fn land_rows(&self, air: u32, land: u32) -> &[u32]
        requires air { IsOf self.now 0 (Some Atmos) air }
        requires land { IsOf self.now 0 (Some Land) land }
        ensures { result.now ≡ land_rows_between self.now air land }
    {
        let pair = self.pair(Component::Atmos, air, Component::Land, land);
        self.rows.land.at(pair)
    }

    fn ice_rows(&self, air: u32, ice: u32) -> &[u32]
        requires air { IsOf self.now 0 (Some Atmos) air }
        requires ice { IsOf self.now 0 (Some Ice) ice }
        ensures { result.now ≡ ice_rows_between self.now air ice }
    {
        let pair = self.pair(Component::Atmos, air, Component::Ice, ice);
        self.rows.ocean.at(pair)
    }

    fn outlets(&self, land: u32, ice: u32) -> &[u32]
        requires land { IsOf self.now 0 (Some Land) land }
        requires ice { IsOf self.now 0 (Some Ice) ice }
        ensures { result.now ≡ outlets_between self.now land ice }
    {
        let pair = self.pair(Component::Land, land, Component::Ice, ice);
        self.rows.outlets.at(pair)
    }

    fn cells(&self, ice: u32, ocean: u32) -> &[u32]
        requires ice { IsOf self.now 0 (Some Ice) ice }
        requires ocean { IsOf self.now 0 (Some Ocean) ocean }
        ensures { result.now ≡ cells_between self.now ice ocean }
    {
        let pair = self.pair(Component::Ice, ice, Component::Ocean, ocean);
        self.rows.cells.at(pair)
    }

    // The exchange cells, outlets or cells that an edge carries numbers of.
    pub(crate) fn carried(&self, purpose: Purpose, from: u32, to: u32) -> &[u32]
        requires from { IsOf self.now (piece_count self.now) (giver purpose) from }
        requires to { IsOf self.now 1 (receiver purpose) to }
        ensures { result.now ≡ carried self.now purpose from to }
    {
        match purpose {
            Purpose::LandToAir => self.land_rows(to, from),
            Purpose::IceToAir => self.ice_rows(to, from),
            Purpose::AirToLand => self.land_rows(from, to),
            Purpose::AirToIce => self.ice_rows(from, to),
            Purpose::LandToIce => self.outlets(from, to),
            Purpose::IceToOcean => self.cells(from, to),
            Purpose::OceanToIce => self.cells(to, from),
            Purpose::AirHalo | Purpose::OceanHalo | Purpose::Sums => &[],
        }
    }

    // How many these are.
    fn count(&self, purpose: Purpose, from: u32, to: u32) -> usize
        requires from { IsOf self.now (piece_count self.now) (giver purpose) from }
        requires to { IsOf self.now 1 (receiver purpose) to }
        ensures count { result ≡ length (carried self.now purpose from to) }
        ensures few { result ≤ MOST_EXCHANGE_CELLS }
    {
        // The contracts of these two have the limits of the grid.
        let _names = self.pieces.names();
        let _grid = self.pieces.grid();
        self.carried(purpose, from, to).len()
    }

    // The strip of two pieces of the air, if there is one.
    fn air_strip(&self, from: u32, to: u32) -> Option<&Strip>
        requires from { IsOf self.now 0 (Some Atmos) from }
        requires to { IsOf self.now 0 (Some Atmos) to }
        ensures { option_copied result ≡ strip_if (air_halo self.now from to) }
    {
        // The contract of `cells` has that mates agree.
        let _cells = self.pieces.grid().air.mosaic.cells();
        let giver = self.place(Component::Atmos, from);
        let taker = self.place(Component::Atmos, to);
        self.halos.air.strip(giver, taker)
    }

    // How many numbers it carries.
    fn air_len(&self, from: u32, to: u32) -> usize
        requires from { IsOf self.now 0 (Some Atmos) from }
        requires to { IsOf self.now 0 (Some Atmos) to }
        ensures { result ≡ 2 * length (air_halo self.now from to).places }
    {
        let _cells = self.pieces.grid().air.mosaic.cells();
        let giver = self.place(Component::Atmos, from);
        let taker = self.place(Component::Atmos, to);
        self.halos.air.len(giver, taker)
    }

    // The strip of two pieces of the ocean, if there is one.
    fn sea_strip(&self, from: u32, to: u32) -> Option<&Strip>
        requires from { IsOf self.now 0 (Some Ocean) from }
        requires to { IsOf self.now 0 (Some Ocean) to }
        ensures { option_copied result ≡ strip_if (ocean_halo self.now from to) }
    {
        let _cells = self.pieces.grid().ocean.mosaic.cells();
        let giver = self.place(Component::Ocean, from);
        let taker = self.place(Component::Ocean, to);
        self.halos.ocean.strip(giver, taker)
    }

    // How many numbers it carries.
    fn sea_len(&self, from: u32, to: u32) -> usize
        requires from { IsOf self.now 0 (Some Ocean) from }
        requires to { IsOf self.now 0 (Some Ocean) to }
        ensures { result ≡ self.now.grid.column.layers * (3 * length (ocean_halo self.now from to).places) }
    {
        let _cells = self.pieces.grid().ocean.mosaic.cells();
        let giver = self.place(Component::Ocean, from);
        let taker = self.place(Component::Ocean, to);
        self.halos.ocean.len(giver, taker)
    }

    // The face strip of two pieces of the ocean, if there is one.
    fn sea_faces(&self, from: u32, to: u32) -> Option<&FaceStrip>
        requires from { IsOf self.now 0 (Some Ocean) from }
        requires to { IsOf self.now 0 (Some Ocean) to }
        ensures { option_copied result ≡ face_strip_if (ocean_faces self.now from to) }
    {
        let _cells = self.pieces.grid().ocean.mosaic.cells();
        let giver = self.place(Component::Ocean, from);
        let taker = self.place(Component::Ocean, to);
        self.halos.seams.strip(giver, taker)
    }

    // How many faces it has.
    fn face_count(&self, from: u32, to: u32) -> usize
        requires from { IsOf self.now 0 (Some Ocean) from }
        requires to { IsOf self.now 0 (Some Ocean) to }
        ensures { result ≡ length (ocean_faces self.now from to).sources }
    {
        match self.sea_faces(from, to) {
            Some(strip) => strip.sources.len(),
            None => 0,
        }
    }

    // The strip that an edge carries numbers by.
    pub(crate) fn strip(&self, purpose: Purpose, from: u32, to: u32) -> Option<&Strip>
        requires from { IsOf self.now (piece_count self.now) (giver purpose) from }
        requires to { IsOf self.now 1 (receiver purpose) to }
        ensures { option_copied result ≡ strip_for self.now purpose from to }
    {
        match purpose {
            Purpose::AirHalo => self.air_strip(from, to),
            Purpose::OceanHalo => self.sea_strip(from, to),
            _ => None,
        }
    }

    // The face strip that an edge carries faces by.
    pub(crate) fn face_strip(&self, purpose: Purpose, from: u32, to: u32) -> Option<&FaceStrip>
        requires from { IsOf self.now (piece_count self.now) (giver purpose) from }
        requires to { IsOf self.now 1 (receiver purpose) to }
        ensures { option_copied result ≡ face_strip_for self.now purpose from to }
    {
        match purpose {
            Purpose::OceanHalo => self.sea_faces(from, to),
            _ => None,
        }
    }

    // Whether there is an edge.
    pub(crate) fn has_edge(&self, purpose: Purpose, from: u32, to: u32) -> bool
        requires from { IsOf self.now (piece_count self.now) (giver purpose) from }
        requires to { IsOf self.now 1 (receiver purpose) to }
        ensures { result ≡ has_edge self.now purpose from to }
    {
        match purpose {
            Purpose::AirHalo => self.air_strip(from, to).is_some(),
            Purpose::OceanHalo => {
                self.sea_strip(from, to).is_some() || self.sea_faces(from, to).is_some()
            }
            Purpose::Sums => true,
            _ => self.count(purpose, from, to) > 0,
        }
    }

    // How many numbers the halo of the ocean carries between two of its pieces. A list that no memory could hold counts as out of
    // memory.
    fn ocean_len(&self, from: u32, to: u32) -> Result<usize, AllocError>
        requires from { IsOf self.now 0 (Some Ocean) from }
        requires to { IsOf self.now 0 (Some Ocean) to }
        ensures { IfOk result (λ len. len ≡ length_for self.now OceanHalo from to 0) }
    {
        let cells = self.sea_len(from, to);
        let faces = self.face_count(from, to);
        let layers = self.pieces.grid().column.layers as usize;
        match layers.checked_mul(faces) {
            Some(numbers) => cells.checked_add(numbers).ok_or(AllocError),
            None => Err(AllocError),
        }
    }

    // How many numbers the elements of so many exchange cells between air and ice carry.
    fn elements_len(&self, count: usize) -> usize
        requires { count ≤ MOST_EXCHANGE_CELLS }
        ensures { result ≡ 4 * (part_count self.now * count) }
    {
        let parts = self.pieces.grid().column.categories as usize + 1;
        4 * (parts * count)
    }

    // How many numbers each use of an edge carries that carries so many exchange cells, outlets or cells.
    fn len_for(
        &self,
        purpose: Purpose,
        from: u32,
        to: u32,
        count: usize,
    ) -> Result<usize, AllocError>
        requires from { IsOf self.now (piece_count self.now) (giver purpose) from }
        requires to { IsOf self.now 1 (receiver purpose) to }
        requires few { count ≤ MOST_EXCHANGE_CELLS }
        ensures { IfOk result (λ len. len ≡ length_for self.now purpose from to count) }
    {
        match purpose {
            Purpose::AirHalo => Ok(self.air_len(from, to)),
            Purpose::LandToAir | Purpose::LandToIce => Ok(2 * count),
            Purpose::IceToAir | Purpose::AirToIce => Ok(self.elements_len(count)),
            Purpose::AirToLand => Ok(4 * count),
            Purpose::IceToOcean => Ok(3 * count),
            Purpose::OceanToIce => Ok(5 * count),
            Purpose::OceanHalo => self.ocean_len(from, to),
            Purpose::Sums => Ok(168),
        }
    }

    // How many numbers each use of an edge carries. A list that no memory could hold counts as out of memory.
    pub(crate) fn len(&self, edge: Edge) -> Result<usize, AllocError>
        requires { IsEdge self.now edge }
        ensures { IfOk result (λ len. len ≡ length_of self.now edge) }
    {
        let Edge { purpose, from, to } = edge;
        let count = self.count(purpose, from, to);
        self.len_for(purpose, from, to, count)
    }
}
