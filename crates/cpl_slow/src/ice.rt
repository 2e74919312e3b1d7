// The slow step of the ice on whole lists.
ghost use Rattle.std.specs.Prelude.{◌≡◌, ◌≢◌, ℕ, ◌+◌, ◌*◌, ◌<◌, ◌≤◌, ◌↔◌, length, pos, ◌+ℤ◌, ◌≤ℤ◌, IsTrue, false};
ghost use Rattle.cpl_fixed.specs.Amounts.{at};
ghost use Rattle.cpl_fixed.specs.Ranges.{AreRates};
ghost use Rattle.cpl_fixed.specs.declared.limits.TheConstants.{MOST_TOTAL};
ghost use Rattle.cpl_xgrid.specs.Grids.{IsGrid};
ghost use Rattle.cpl_ice.specs.Cells.{IsIceCell, IsSalty};
ghost use Rattle.cpl_ice.specs.Slow.{CanSlow, returned, slowed};
ghost use Rattle.cpl_state.specs.States.{IsWet, categories, ice_cell, ocean_cells, skin_of};
ghost use Rattle.cpl_state.specs.Slow.{returned_if_wet, slowed_if_wet};
ghost use Rattle.cpl_slow.specs.Land.{gain_at};
ghost use Rattle.cpl_slow.specs.Ice.{AllCanSlow, AreIceLists, AreSkins, AreSlowed, CanSlowCell, HoldIce, IsBare, IsCellPut, IsTurned, whole_with_ice, with_ice};

use crate::blocks::{filled_up, has_none, put};
use cpl_fixed::{Gain, PARTS, Rates};
use cpl_ice::{IceCell, NOTHING, Salty};
use cpl_state::{Mid, Whole};
use cpl_xgrid::Grid;
use std::alloc::Global;

/// The lists of the ice while they change, with what flies to the ocean.
#[derive(Drop)]
pub(crate) struct IceLists {
    pub(crate) parts: Vec<i64>,
    pub(crate) ice: Vec<i64>,
    pub(crate) heat: Vec<i64>,
    pub(crate) to_ocean: Vec<i64>,
}

// The skin of a cell.
fn skin_of(grid: &Grid, mid: &Mid, n: usize) -> Salty
    requires skins { AreSkins grid.now mid.now }
    requires within { n < ocean_cells grid.now }
    ensures { result ≡ skin_of mid.now n }
{
    Salty {
        water: mid.skin_water.as_slice()[n],
        heat: mid.skin_heat.as_slice()[n],
        salt: mid.skin_salt.as_slice()[n],
    }
}

// Whether there is frazil in a cell.
fn has_frazil(mid: &Mid, n: usize) -> bool
    requires frazil_water { n < length mid.now.frazil_water }
    requires frazil_heat { n < length mid.now.frazil_heat }
    ensures none { result ≡ false → (at mid.now.frazil_water n ≡ pos 0) × (at mid.now.frazil_heat n ≡ pos 0) }
    ensures some { at mid.now.frazil_water n ≡ pos 0 → at mid.now.frazil_heat n ≡ pos 0 → result ≡ false }
{
    mid.frazil_water.as_slice()[n] != 0 || mid.frazil_heat.as_slice()[n] != 0
}

impl IceLists {
    // No lists yet. It takes no memory.
    pub(crate) fn new(alloc: Global) -> IceLists {
        IceLists {
            parts: Vec::new(alloc),
            ice: Vec::new(alloc),
            heat: Vec::new(alloc),
            to_ocean: Vec::new(alloc),
        }
    }

    /// Changes places with the lists of a state.
    pub(crate) fn swap(&mut self, whole: &mut Whole)
        ensures whole { whole.new ≡ whole_with_ice whole.old self.old }
        ensures lists { HoldIce whole.old self.new }
    {
        whole.parts.swap(&mut self.parts);
        whole.ice.swap(&mut self.ice);
        whole.ice_heat.swap(&mut self.heat);
        whole.to_ocean.swap(&mut self.to_ocean);
    }

    // Whether a cell is open water alone, and there is neither ice nor heat in its categories nor frazil.
    fn is_bare(&self, mid: &Mid, categories: usize, n: usize) -> bool
        requires parts { n * (categories + 1) + categories < length self.now.parts.items }
        requires ice { n * categories + categories ≤ length self.now.ice.items }
        requires heat { n * categories + categories ≤ length self.now.heat.items }
        requires frazil_water { n < length mid.now.frazil_water }
        requires frazil_heat { n < length mid.now.frazil_heat }
        ensures { IsTrue result ↔ IsBare categories n self.now mid.now }
    {
        if self.parts[n * categories + n] != PARTS || has_frazil(mid, n) {
            return false;
        }
        has_none(&self.ice, categories, n) && has_none(&self.heat, categories, n)
    }

    // A cell, with its skin and its frazil.
    fn cell(&self, grid: &Grid, mid: &Mid, n: usize) -> IceCell
        requires grid { IsGrid grid.now }
        requires lists { AreIceLists grid.now self.now }
        requires skins { AreSkins grid.now mid.now }
        requires within { n < ocean_cells grid.now }
        ensures { result ≡ ice_cell grid.now (with_ice mid.now self.now) n }
    {
        let categories = grid.column.categories as usize;
        IceCell {
            area: grid.ocean.area.as_slice()[n],
            categories: grid.column.categories,
            parts: filled_up(&self.parts, categories + 1, n),
            ice: filled_up(&self.ice, categories, n),
            heat: filled_up(&self.heat, categories, n),
            frazil_water: mid.frazil_water.as_slice()[n],
            frazil_heat: mid.frazil_heat.as_slice()[n],
            skin: skin_of(grid, mid, n),
        }
    }

    // Puts a cell into the lists.
    fn put(&mut self, categories: usize, n: usize, cell: &IceCell)
        requires few { categories ≤ 5 }
        requires parts { n * (categories + 1) + (categories + 1) ≤ length self.old.parts.items }
        requires ice { n * categories + categories ≤ length self.old.ice.items }
        requires heat { n * categories + categories ≤ length self.old.heat.items }
        ensures { IsCellPut categories n cell.now self.old self.new }
    {
        let start = n * categories;
        put(&mut self.parts, start + n, categories + 1, &cell.parts);
        put(&mut self.ice, start, categories, &cell.ice);
        put(&mut self.heat, start, categories, &cell.heat);
    }

    // A cell with water slows: what it gives back with the runoff that arrived. A bare cell costs no more than a look.
    fn slow_wet(&mut self, grid: &Grid, rates: &Rates, mid: &Mid, n: usize, runoff: Gain) -> Salty
        requires grid { IsGrid grid.now }
        requires rates { AreRates rates.now }
        requires lists { AreIceLists grid.now self.old }
        requires skins { AreSkins grid.now mid.now }
        requires within { n < ocean_cells grid.now }
        requires cell { IsIceCell (ice_cell grid.now (with_ice mid.now self.old) n) }
        requires runoff { CanSlow (ice_cell grid.now (with_ice mid.now self.old) n) runoff }
        ensures put { IsCellPut (categories grid.now) n (slowed rates.now (ice_cell grid.now (with_ice mid.now self.old) n)) self.old self.new }
        ensures returned { result ≡ returned rates.now (ice_cell grid.now (with_ice mid.now self.old) n) runoff }
        ensures amounts { IsSalty result }
    {
        let categories = grid.column.categories as usize;
        if self.is_bare(mid, categories, n) {
            let skin = skin_of(grid, mid, n);
            return Salty {
                water: skin.water + runoff.water,
                heat: skin.heat + runoff.heat,
                salt: skin.salt,
            };
        }
        let mut cell = self.cell(grid, mid, n);
        let back = cell.slow(rates, runoff);
        self.put(categories, n, &cell);
        back
    }

    // A cell slows: what it gives back. A dry cell holds nothing, and stays as it is.
    fn slow_any(&mut self, grid: &Grid, rates: &Rates, mid: &Mid, n: usize, runoff: Gain) -> Salty
        requires grid { IsGrid grid.now }
        requires rates { AreRates rates.now }
        requires lists { AreIceLists grid.now self.old }
        requires skins { AreSkins grid.now mid.now }
        requires within { n < ocean_cells grid.now }
        requires can { CanSlowCell (ice_cell grid.now (with_ice mid.now self.old) n) runoff }
        ensures put { IsCellPut (categories grid.now) n (slowed_if_wet rates.now (ice_cell grid.now (with_ice mid.now self.old) n)) self.old self.new }
        ensures returned { result ≡ returned_if_wet rates.now (ice_cell grid.now (with_ice mid.now self.old) n) runoff }
        ensures amounts { IsSalty result }
    {
        if grid.ocean.area.as_slice()[n] == 0 {
            return NOTHING;
        }
        self.slow_wet(grid, rates, mid, n, runoff)
    }

    // A cell slows, and what it gives back stands in the flights. A dry cell holds nothing, and stays as it is.
    fn slow_cell(&mut self, grid: &Grid, rates: &Rates, mid: &Mid, n: usize, runoff: Gain)
        requires grid { IsGrid grid.now }
        requires rates { AreRates rates.now }
        requires lists { AreIceLists grid.now self.old }
        requires skins { AreSkins grid.now mid.now }
        requires within { n < ocean_cells grid.now }
        requires can { CanSlowCell (ice_cell grid.now (with_ice mid.now self.old) n) runoff }
        ensures { IsTurned (categories grid.now) n (slowed_if_wet rates.now (ice_cell grid.now (with_ice mid.now self.old) n)) (returned_if_wet rates.now (ice_cell grid.now (with_ice mid.now self.old) n) runoff) self.old self.new }
    {
        let back = self.slow_any(grid, rates, mid, n, runoff);
        put(
            &mut self.to_ocean,
            n * 3,
            3,
            &[back.water, back.heat, back.salt],
        );
    }

    /// All cells slow with the runoff that arrived in each.
    pub(crate) fn slow(&mut self, grid: &Grid, rates: &Rates, mid: &Mid, arrived: &[Gain])
        requires grid { IsGrid grid.now }
        requires rates { AreRates rates.now }
        requires lists { AreIceLists grid.now self.old }
        requires skins { AreSkins grid.now mid.now }
        requires can { AllCanSlow grid.now (with_ice mid.now self.old) arrived.now }
        ensures { AreSlowed grid.now rates.now (with_ice mid.now self.old) arrived.now self.new }
    {
        for n in 0..arrived.len() {
            self.slow_cell(grid, rates, mid, n, arrived[n]);
        }
    }
}
