// A plan.
ghost use Rattle.std.specs.Prelude.{◌≡◌, ◌≤◌, None, IfOk, OnOk, IfErr, pos, ◌≤ℤ◌};
ghost use Rattle.cpl_fixed.specs.Ranges.{IsFrom};
ghost use Rattle.cpl_layout.specs.Layouts.{IsLayout, layout_fault};
ghost use Rattle.cpl_namelist.specs.Ranges.{AreNames};
ghost use Rattle.cpl_xgrid.specs.Grids.{IsGrid};
ghost use Rattle.cpl_state.specs.Diffusion.{IsAirMesh};
ghost use Rattle.cpl_state.specs.Stored.{IsStored};
ghost use Rattle.cpl_state.specs.States.{IsWhole};
ghost use Rattle.cpl_plan.specs.Faults.{IsFirstFault, Judges, component_fault, date_fault, layouts_fault, plan_fault};
ghost use Rattle.cpl_plan.specs.Plans.{HasLayouts, IsPlan};

use crate::budget::judge_budget;
use crate::error::PlanError;
use cpl_fixed::{Component, LayoutError};
use cpl_layout::Layout;
use cpl_mosaic::Mosaic;
use cpl_namelist::Names;
use cpl_state::Whole;
use cpl_xgrid::Grid;
use std::alloc::Global;
use std::marker::Model;

/// What a run goes by: a grid, a namelist and a start. Contracts see the three.
///
/// The layouts of all components fit their mosaics, the run ends in year 9999 at the latest, and all heat, water and salt that it
/// may come to hold keep within 2^62 - 1 each.
#[derive(Drop)]
pub struct Plan {
    grid: Grid,
    names: Names,
    start: Whole,
}

impl Model for Plan {
    ghost use Rattle.cpl_plan.specs.Plans.{IsPlan, PlanParts};

    ghost Value = { PlanParts };

    ghost view = { λ a. record { grid = a.grid; names = a.names; start = a.start } };

    ghost invariant = { λ a. IsPlan (record { grid = a.grid; names = a.names; start = a.start }) };
}

// Whether the tiles of a component's mosaic can be cut into as many pieces.
fn judge_layout(
    alloc: Global,
    component: Component,
    mosaic: &Mosaic,
    layout: (u32, u32),
) -> Result<(), PlanError>
    requires columns { IsFrom 1 64 layout.0 }
    requires rows { IsFrom 1 64 layout.1 }
    ensures fault { Judges (component_fault component mosaic.now.tiles layout) result }
    ensures fits { OnOk result (IsLayout (record { tiles = mosaic.now.tiles; px = layout.0; py = layout.1 })) }
{
    let (px, py) = layout;
    match Layout::new(alloc, mosaic, px, py) {
        Ok(cut) => {
            // The contract of `pieces` has the rules of a layout.
            let _pieces = cut.pieces();
            Ok(())
        }
        Err(LayoutError::Memory) => Err(PlanError::Memory),
        Err(fault) => Err(PlanError::Layout(component, fault)),
    }
}

// Whether the layouts of all components fit. The ice has the ocean's mosaic.
fn judge_layouts(alloc: Global, grid: &Grid, names: &Names) -> Result<(), PlanError>
    requires { AreNames names.now }
    ensures fault { Judges (layouts_fault grid.now names.now) result }
    ensures fits { OnOk result (HasLayouts grid.now names.now) }
{
    let [air, land, ice, ocean] = names.layouts;
    judge_layout(alloc, Component::Atmos, &grid.air.mosaic, air)?;
    judge_layout(alloc, Component::Land, &grid.land.mosaic, land)?;
    judge_layout(alloc, Component::Ice, &grid.ocean.mosaic, ice)?;
    judge_layout(alloc, Component::Ocean, &grid.ocean.mosaic, ocean)?;
    Ok(())
}

// Whether the run ends in year 9999 at the latest.
fn judge_date(names: &Names, start: &Whole) -> Result<(), PlanError>
    requires names { AreNames names.now }
    requires elapsed { IsStored start.now.elapsed }
    ensures { Judges (date_fault names.now start.now) result }
{
    let run = i64::from(names.steps) * names.dt;
    let last = match start.elapsed.checked_add(run) {
        Some(last) => last,
        None => return Err(PlanError::Date(i64::MAX)),
    };
    if names.fits(last) {
        Ok(())
    } else {
        Err(PlanError::Date(last))
    }
}

impl Plan {
    /// A plan of a grid, the names of a run and a state of the grid.
    ///
    /// Faults come in this order. `Layout` is the first component, of atmos, land, ice and ocean, whose layout doesn't fit its
    /// mosaic; the ice has the ocean's. `Date` comes where the run's last moment is after 9999-12-31 23:59:59, also for a run of no
    /// steps, with its elapsed seconds, or 2^63 - 1 where they are more. `Budget` is the first of heat, water and salt whose total
    /// is above 2^62 - 1, with the total: all that the start holds, flights with it, and for heat the sun of the strongest month in
    /// all fast steps of the run. `Memory` may come in place of a later fault of layouts.
    pub fn new(alloc: Global, grid: Grid, names: Names, start: Whole) -> Result<Plan, PlanError>
        requires grid { IsGrid grid }
        requires air { IsAirMesh grid.air }
        requires names { AreNames names }
        requires start { IsWhole grid start }
        ensures plan { IfOk result (λ plan. plan ≡ record { grid = grid; names = names; start = start }) }
        ensures lawful { IfOk result IsPlan }
        ensures rules { OnOk result (plan_fault grid names start ≡ None) }
        ensures fault { IfErr result (IsFirstFault (plan_fault grid names start)) }
    {
        judge_layouts(alloc, &grid, &names)?;
        judge_date(&names, &start)?;
        judge_budget(&grid, &names, &start)?;
        Ok(Plan { grid, names, start })
    }

    /// The grid. This and the next two calls take no memory.
    pub fn grid(&self) -> &Grid
        ensures grid { result.now ≡ self.now.grid }
        ensures lawful { IsPlan self.now }
    {
        &self.grid
    }

    /// The names of the run.
    pub fn names(&self) -> &Names
        ensures names { result.now ≡ self.now.names }
        ensures lawful { IsPlan self.now }
    {
        &self.names
    }

    /// The state that the run begins with.
    pub fn start(&self) -> &Whole
        ensures start { result.now ≡ self.now.start }
        ensures lawful { IsPlan self.now }
    {
        &self.start
    }
}
