// What a fast step sees of the air.
ghost use Rattle.std.specs.Prelude.{◌≡◌};
ghost use Rattle.cpl_state.specs.FastLaws.{CanStep};
ghost use Rattle.cpl_fast.specs.Filled.{AreSkies};
ghost use Rattle.cpl_fast.specs.Rooms.{IsDivided, before_step};

use crate::room::FastRoom;
use crate::tables::fill_skies;
use cpl_fixed::Rates;
use cpl_state::Mid;
use cpl_xgrid::Grid;

impl FastRoom {
    // The skies of the cells of the air before a step.
    pub(crate) fn look_up(&mut self, grid: &Grid, rates: &Rates, month: u32, mid: &Mid)
        requires can { CanStep (before_step grid.now rates.now month mid.now) }
        requires room { IsDivided (before_step grid.now rates.now month mid.now) self.old }
        ensures skies { AreSkies (before_step grid.now rates.now month mid.now) self.new.skies.items }
        ensures room { self.new ≡ record self.old { skies = self.new.skies } }
    {
        // The contracts of `cells` have the laws of numbers.
        let _airs = grid.air.mosaic.cells();
        let _lands = grid.land.mosaic.cells();
        let _oceans = grid.ocean.mosaic.cells();
        let _month = month;
        fill_skies(
            rates,
            mid.whole.air_heat.as_slice(),
            mid.whole.air_vapour.as_slice(),
            grid.air.area.as_slice(),
            &mut self.skies,
        );
    }
}
