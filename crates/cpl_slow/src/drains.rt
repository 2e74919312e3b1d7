// The ways of the runoff.
ghost use Rattle.std.specs.Prelude.{◌≡◌, ◌<◌, ◌≤◌, ℕ, length, pos, ◌≤ℤ◌, ◌<ℤ◌, IfOk};
ghost use Rattle.cpl_fixed.specs.Shares.{share};
ghost use Rattle.cpl_xgrid.specs.Grids.{IsGrid};
ghost use Rattle.cpl_slow.specs.Land.{gain_at, no_gain};
ghost use Rattle.cpl_slow.specs.Drains.{AreDrains, CanBring, IsGained, brought_heat, brought_water, brought_to};

use cpl_fixed::{Gain, share};
use cpl_xgrid::Grid;
use std::alloc::{AllocError, Global};

// An outlet: the numbers of its cells, and the weights of the outlets of its land cell up to it and with it.
#[derive(Clone, Copy)]
pub(crate) struct Drain {
    pub(crate) land: u32,
    pub(crate) ocean: u32,
    pub(crate) from: i64,
    pub(crate) to: i64,
}

/// The outlets of a grid, and the weights of all outlets of each land cell.
#[derive(Drop)]
pub(crate) struct Drains {
    pub(crate) each: Vec<Drain>,
    pub(crate) weights: Vec<i64>,
}

/// Nothing.
pub(crate) const NO_GAIN: Gain = Gain { heat: 0, water: 0 };

// The outlets of a grid.
pub(crate) fn drains_of(alloc: Global, grid: &Grid) -> Result<Drains, AllocError>
    requires { IsGrid grid.now }
    ensures { IfOk result (AreDrains grid.now) }
{
    // The contracts of `cells` have the laws of numbers.
    let cells = grid.land.mosaic.cells();
    let _cells = grid.ocean.mosaic.cells();
    let outlets = grid.xgrid.outlets();
    let mut weights = vec![in alloc; 0; cells as usize]?;
    let mut each = Vec::with_capacity(alloc, outlets.len())?;
    for outlet in outlets {
        let land = grid.land.mosaic.number(outlet.land);
        let ocean = grid.ocean.mosaic.number(outlet.ocean);
        let from = weights[land as usize];
        let to = from + outlet.weight;
        weights[land as usize] = to;
        each.push(Drain {
            land,
            ocean,
            from,
            to,
        })?;
    }
    Ok(Drains { each, weights })
}

impl Drain {
    // Its share of the runoff of its land cell, whose outlets have this weight.
    fn share(self, runoff: Gain, whole: i64) -> Gain
        requires heat { pos 0 ≤ℤ runoff.heat }
        requires water { pos 0 ≤ℤ runoff.water }
        requires from { pos 0 ≤ℤ self.from }
        requires order { self.from ≤ℤ self.to }
        requires within { self.to ≤ℤ whole }
        requires some { pos 0 <ℤ whole }
        ensures heat { result.heat ≡ share runoff.heat self.from self.to whole }
        ensures water { result.water ≡ share runoff.water self.from self.to whole }
        ensures least { (pos 0 ≤ℤ result.heat) × (pos 0 ≤ℤ result.water) }
    {
        Gain {
            heat: share(runoff.heat, self.from, self.to, whole),
            water: share(runoff.water, self.from, self.to, whole),
        }
    }
}

// Brings the runoff of all land cells to the ocean. A land cell with no runoff costs a look at each of its outlets.
fn bring(each: &[Drain], weights: &[i64], runoffs: &[Gain], arrived: &mut [Gain])
    requires can { CanBring each.now weights.now runoffs.now (length arrived.old) }
    requires empty { (m : ℕ) → m < length arrived.old → gain_at arrived.old m ≡ no_gain }
    ensures { IsGained each.now weights.now runoffs.now (length each.now) (length arrived.old) arrived.new }
{
    for drain in each {
        let land = drain.land as usize;
        if runoffs[land].water > 0 {
            let gain = drain.share(runoffs[land], weights[land]);
            let ocean = drain.ocean as usize;
            arrived[ocean] = Gain {
                heat: arrived[ocean].heat + gain.heat,
                water: arrived[ocean].water + gain.water,
            };
        }
    }
}

impl Drains {
    // What the runoff brings to each cell of the ocean.
    pub(crate) fn bring(&self, runoffs: &[Gain], arrived: &mut [Gain])
        requires { CanBring self.now.each.items self.now.weights.items runoffs.now (length arrived.old) }
        ensures { IsGained self.now.each.items self.now.weights.items runoffs.now (length self.now.each.items) (length arrived.old) arrived.new }
    {
        arrived.fill(NO_GAIN);
        bring(&self.each, &self.weights, runoffs, arrived);
    }
}
