// The pieces of all components.
ghost use Rattle.std.specs.Prelude.{◌≡◌, ◌+◌, ◌<◌, ◌≤◌, IfOk, slice_index_or};
ghost use Rattle.cpl_mosaic.specs.Sides.{IsCellOf};
ghost use Rattle.cpl_layout.specs.Layouts.{Cuts, IsLayout};
ghost use Rattle.cpl_layout.specs.Owners.{OwnersAgree};
ghost use Rattle.cpl_layout.specs.Pieces.{owner_of};
ghost use Rattle.cpl_namelist.specs.Ranges.{AreNames};
ghost use Rattle.cpl_xgrid.specs.Grids.{IsGrid};
ghost use Rattle.cpl_wires.specs.Settings.{Setting, IsSetting, mesh_of, layout_of, pieces_along, pieces_in, base_of, piece_count, component_of};

use cpl_fixed::{Component, LayoutError};
use cpl_layout::Layout;
use cpl_mosaic::{CellId, Mosaic};
use cpl_namelist::Names;
use cpl_xgrid::Grid;
use std::alloc::{AllocError, Global};
use std::marker::Model;

// A setting with the layouts of all components.
#[derive(Drop)]
pub(crate) struct Pieces {
    grid: Grid,
    names: Names,
    air: Layout,
    land: Layout,
    ice: Layout,
    ocean: Layout,
}

impl Model for Pieces {
    ghost use Rattle.cpl_wires.specs.Settings.{Setting};
    ghost use Rattle.cpl_wires.specs.Tables.{ArePieces};

    ghost Value = { Setting };

    ghost view = { λ a. record { grid = a.grid; names = a.names } };

    ghost invariant = { λ a. ArePieces (record { grid = a.grid; names = a.names }) a.air a.land a.ice a.ocean };
}

// A layout that fits its mosaic.
fn lay_out(alloc: Global, mosaic: &Mosaic, layout: (u32, u32)) -> Result<Layout, AllocError>
    requires { IsLayout (record { tiles = mosaic.now.tiles; px = layout.0; py = layout.1 }) }
    ensures { IfOk result (λ made. made ≡ record { tiles = mosaic.now.tiles; px = layout.0; py = layout.1 }) }
{
    match Layout::new(alloc, mosaic, layout.0, layout.1) {
        Ok(made) => Ok(made),
        Err(_) => Err(AllocError),
    }
}

impl Pieces {
    pub(crate) fn new(alloc: Global, grid: Grid, names: Names) -> Result<Pieces, AllocError>
        requires grid { IsGrid grid }
        requires setting { IsSetting (record { grid = grid; names = names }) }
        ensures { IfOk result (λ pieces. pieces ≡ record { grid = grid; names = names }) }
    {
        let [air, land, ice, ocean] = names.layouts;
        let air = lay_out(alloc, &grid.air.mosaic, air)?;
        let land = lay_out(alloc, &grid.land.mosaic, land)?;
        let ice = lay_out(alloc, &grid.ocean.mosaic, ice)?;
        let ocean = lay_out(alloc, &grid.ocean.mosaic, ocean)?;
        Ok(Pieces {
            grid,
            names,
            air,
            land,
            ice,
            ocean,
        })
    }

    pub(crate) fn grid(&self) -> &Grid
        ensures grid { result.now ≡ self.now.grid }
        ensures lawful { IsGrid self.now.grid }
    {
        &self.grid
    }

    pub(crate) fn names(&self) -> &Names
        ensures names { result.now ≡ self.now.names }
        ensures lawful { IsSetting self.now }
    {
        &self.names
    }

    // The layout of a component.
    pub(crate) fn layout(&self, component: Component) -> &Layout
        ensures layout { result.now ≡ layout_of self.now component }
        ensures lawful { IsLayout (layout_of self.now component) }
    {
        match component {
            Component::Atmos => &self.air,
            Component::Land => &self.land,
            Component::Ice => &self.ice,
            Component::Ocean => &self.ocean,
        }
    }

    // How many pieces a component has, 1 to 64.
    pub(crate) fn pieces(&self, component: Component) -> u32
        ensures count { result ≡ pieces_in self.now component }
        ensures some { 1 ≤ result }
        ensures few { result ≤ 64 }
    {
        self.layout(component).pieces()
    }

    // The first piece of a component.
    pub(crate) fn base(&self, component: Component) -> u32
        ensures base { result ≡ base_of self.now component }
        ensures few { result ≤ 192 }
    {
        match component {
            Component::Atmos => 0,
            Component::Land => self.pieces(Component::Atmos),
            Component::Ice => self.pieces(Component::Atmos) + self.pieces(Component::Land),
            Component::Ocean => {
                self.pieces(Component::Atmos)
                    + self.pieces(Component::Land)
                    + self.pieces(Component::Ice)
            }
        }
    }

    // How many pieces there are, 4 to 256.
    pub(crate) fn count(&self) -> u32
        ensures count { result ≡ piece_count self.now }
        ensures few { result ≤ 256 }
    {
        self.base(Component::Ocean) + self.pieces(Component::Ocean)
    }

    // The component that a piece is of.
    pub(crate) fn component(&self, piece: u32) -> Component
        ensures { result ≡ component_of self.now piece }
    {
        if piece < self.base(Component::Land) {
            Component::Atmos
        } else if piece < self.base(Component::Ice) {
            Component::Land
        } else if piece < self.base(Component::Ocean) {
            Component::Ice
        } else {
            Component::Ocean
        }
    }
}
