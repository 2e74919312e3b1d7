// Room for the steps of the ocean.
ghost use Rattle.std.specs.Prelude.{◌≡◌, IfOk};
ghost use Rattle.cpl_fixed.specs.Ranges.{AreRates};
ghost use Rattle.cpl_xgrid.specs.Lists.{IsColumn, IsMesh};
ghost use Rattle.cpl_state.specs.States.{layers};
ghost use Rattle.cpl_state.specs.Transport.{stepped};
ghost use Rattle.cpl_sea.specs.Rooms.{IsSeaRoom, sea_in};
ghost use Rattle.cpl_sea.specs.Seas.{IsSea};

use crate::before::Before;
use crate::blocks::{BLOCK, blocks_ready, pass_blocks};
use crate::cell_faces::cell_faces;
use crate::columns::raise;
use crate::links::{CellFaces, Link};
use crate::lookups::links;
use cpl_faces::faces;
use cpl_fixed::Rates;
use cpl_ice::{NOTHING, Salty};
use cpl_mosaic::Mesh;
use cpl_xgrid::Grid;
use std::alloc::{AllocError, Global};
use std::mem;

/// Room for the steps of an ocean: what they look up of its mosaic, and buffers, all made once.
#[derive(Drop)]
pub struct SeaRoom {
    pub(crate) links: Vec<Link>,
    pub(crate) cell_faces: Vec<CellFaces>,
    // For each block of cells, how many faces have to move before what its cells see is known, at least as many as for the blocks
    // before it.
    pub(crate) ready: Vec<u32>,
    pub(crate) heights: Vec<i64>,
    // What moves through the faces of all layers.
    pub(crate) flows: Vec<Salty>,
    // What the transport leaves in the cells of a block.
    pub(crate) rest: Vec<Salty>,
    // What the cells of all layers hold after the step: these change places with the lists before it.
    pub(crate) next_water: Vec<i64>,
    pub(crate) next_heat: Vec<i64>,
    pub(crate) next_salt: Vec<i64>,
    // These change places with the lists of a state while a step works on them.
    pub(crate) water: Vec<i64>,
    pub(crate) heat: Vec<i64>,
    pub(crate) salt: Vec<i64>,
    pub(crate) faces: Vec<i64>,
    pub(crate) flights: Vec<i64>,
}

impl SeaRoom {
    /// Room for the steps of a grid's ocean. Its time is linear in the cells of all layers.
    pub fn new(alloc: Global, grid: &Grid) -> Result<SeaRoom, AllocError>
        requires ocean { IsMesh grid.now.ocean }
        requires column { IsColumn grid.now.column }
        ensures { IfOk result (λ room. IsSeaRoom grid.now.ocean (layers grid.now) room) }
    {
        let mesh = &grid.ocean;
        let cells = mesh.mosaic.cells() as usize;
        let faces = faces(alloc, &mesh.mosaic)?;
        let cell_faces = cell_faces(alloc, mesh, faces.as_slice())?;
        let layers = grid.column.layers as usize;
        let all = layers * cells;
        Ok(SeaRoom {
            links: links(alloc, mesh, faces.as_slice())?,
            ready: blocks_ready(alloc, cell_faces.as_slice())?,
            cell_faces,
            heights: vec![in alloc; 0; cells]?,
            flows: vec![in alloc; NOTHING; layers * faces.len()]?,
            rest: vec![in alloc; NOTHING; layers * BLOCK]?,
            next_water: vec![in alloc; 0; all]?,
            next_heat: vec![in alloc; 0; all]?,
            next_salt: vec![in alloc; 0; all]?,
            water: Vec::new(alloc),
            heat: Vec::new(alloc),
            salt: Vec::new(alloc),
            faces: Vec::new(alloc),
            flights: Vec::new(alloc),
        })
    }

    // One step of the ocean whose lists are in the room.
    pub(crate) fn advance(&mut self, mesh: &Mesh, layers: usize, rates: &Rates)
        requires room { IsSeaRoom mesh.now layers self.old }
        requires sea { IsSea mesh.now layers (sea_in self.old) }
        requires rates { AreRates rates.now }
        ensures sea { sea_in self.new ≡ stepped mesh.now layers rates.now (sea_in self.old) }
        ensures room { IsSeaRoom mesh.now layers self.new }
    {
        raise(
            mesh,
            self.water.as_slice(),
            layers,
            self.heights.as_mut_slice(),
        );
        let before = Before {
            links: self.links.as_slice(),
            cell_faces: self.cell_faces.as_slice(),
            ready: self.ready.as_slice(),
            heights: self.heights.as_slice(),
            water: self.water.as_slice(),
            heat: self.heat.as_slice(),
            salt: self.salt.as_slice(),
            layers,
            slope: rates.slope,
            mix: rates.mix,
        };
        pass_blocks(
            &before,
            self.faces.as_mut_slice(),
            self.flows.as_mut_slice(),
            self.rest.as_mut_slice(),
            self.next_water.as_mut_slice(),
            self.next_heat.as_mut_slice(),
            self.next_salt.as_mut_slice(),
        );
        mem::swap(&mut self.water, &mut self.next_water);
        mem::swap(&mut self.heat, &mut self.next_heat);
        mem::swap(&mut self.salt, &mut self.next_salt);
    }
}
