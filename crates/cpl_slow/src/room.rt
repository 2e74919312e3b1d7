// Room for the slow part of a coupling step.
ghost use Rattle.std.specs.Prelude.{◌≡◌, length, IfOk};
ghost use Rattle.cpl_xgrid.specs.Grids.{IsGrid};
ghost use Rattle.cpl_slow.specs.Land.{gain_at};
ghost use Rattle.cpl_slow.specs.Rooms.{IsSlowRoom};
ghost use Rattle.cpl_slow.specs.Sums.{AreGains, gain_sums};

use crate::drains::{Drains, NO_GAIN, drains_of};
use crate::ice::IceLists;
use crate::tally::{SlowTally, gain_sums};
use cpl_fixed::Gain;
use cpl_xgrid::Grid;
use std::alloc::{AllocError, Global};

/// Room for the taking of the flights and for the slow part of a coupling step, with the ways of the runoff. It is made once for
/// many steps, which then take no memory.
#[derive(Drop)]
pub struct SlowRoom {
    pub(crate) drains: Drains,
    pub(crate) runoffs: Vec<Gain>,
    pub(crate) arrived: Vec<Gain>,
    pub(crate) ice: IceLists,
}

impl SlowRoom {
    /// Room for the steps of a grid: a gain for each cell of the land and of the ocean's mosaic, and a number and two weights for
    /// each outlet. It takes time linear in them.
    pub fn new(alloc: Global, grid: &Grid) -> Result<SlowRoom, AllocError>
        requires { IsGrid grid.now }
        ensures { IfOk result (IsSlowRoom grid.now) }
    {
        let lands = grid.land.mosaic.cells() as usize;
        let oceans = grid.ocean.mosaic.cells() as usize;
        Ok(SlowRoom {
            drains: drains_of(alloc, grid)?,
            runoffs: vec![in alloc; NO_GAIN; lands]?,
            arrived: vec![in alloc; NO_GAIN; oceans]?,
            ice: IceLists::new(alloc),
        })
    }

    // What stands in the room of what ran off and arrived.
    pub(crate) fn tally(&self) -> SlowTally
        requires runoffs { AreGains self.now.runoffs.items }
        requires arrived { AreGains self.now.arrived.items }
        ensures gave { result.gave ≡ gain_sums (length self.now.runoffs.items) (gain_at self.now.runoffs.items) }
        ensures took { result.took ≡ gain_sums (length self.now.arrived.items) (gain_at self.now.arrived.items) }
    {
        SlowTally {
            gave: gain_sums(&self.runoffs),
            took: gain_sums(&self.arrived),
        }
    }
}
