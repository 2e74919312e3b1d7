// The surface takes what flowed through its elements.
ghost use Rattle.std.specs.Prelude.{◌≡◌, length};
ghost use Rattle.cpl_fixed.specs.Amounts.{at};
ghost use Rattle.cpl_fast.specs.Stages.{HasOtherIce, HasOtherLand, HasOtherSurface};
ghost use Rattle.cpl_fast.specs.Surfaces.{CanTakeIce, CanTakeLand, HasTakenIce, HasTakenLand, land_at, ocean_at, taken_to};

use crate::land::land_lists;
use crate::ocean::{IceParts, ocean_lists};
use crate::room::FastRoom;
use crate::sums::Taken;
use cpl_state::Mid;
use cpl_xgrid::Grid;

impl FastRoom {
    // The land of a state takes what flowed, its lists in the room meanwhile. The result is what it took from the air.
    pub(crate) fn take_on_land(&mut self, grid: &Grid, mid: &mut Mid) -> Taken
        requires { CanTakeLand grid.now.xgrid self.old.land_flows.items mid.old.whole.land_heat mid.old.whole.land_water }
        ensures taken { result ≡ taken_to (length mid.old.whole.land_heat) (λ n. (land_at grid.now.xgrid self.old.land_flows.items (at mid.old.whole.land_heat n) (at mid.old.whole.land_water n) n).taken) }
        ensures land { HasTakenLand grid.now.xgrid self.old.land_flows.items mid.old.whole.land_heat mid.old.whole.land_water mid.new.whole.land_heat mid.new.whole.land_water }
        ensures others { HasOtherLand mid.old mid.new }
        ensures room { HasOtherSurface self.old self.new }
    {
        mid.whole.land_heat.swap(&mut self.land_heat);
        mid.whole.land_water.swap(&mut self.land_water);
        let taken = land_lists(
            &grid.xgrid,
            &self.land_flows,
            &mut self.land_heat,
            &mut self.land_water,
        );
        mid.whole.land_heat.swap(&mut self.land_heat);
        mid.whole.land_water.swap(&mut self.land_water);
        taken
    }

    // The skins and the categories of a state take what flowed, their lists in the room meanwhile. The result is what they took from
    // the air.
    pub(crate) fn take_on_ice(&mut self, grid: &Grid, mid: &mut Mid) -> Taken
        requires { CanTakeIce grid.now.xgrid self.old.ocean_flows.items self.old.ocean_area.items self.old.ocean_used.items grid.now.column.categories mid.old.whole.ice_heat mid.old.skin_heat mid.old.skin_water }
        ensures taken { result ≡ taken_to (length mid.old.skin_heat) (λ n. ocean_at grid.now.xgrid self.old.ocean_flows.items grid.now.column.categories n) }
        ensures ice { HasTakenIce grid.now.xgrid self.old.ocean_flows.items grid.now.column.categories mid.old.whole.ice_heat mid.old.skin_heat mid.old.skin_water mid.new.whole.ice_heat mid.new.skin_heat mid.new.skin_water }
        ensures others { HasOtherIce mid.old mid.new }
        ensures room { HasOtherSurface self.old self.new }
    {
        mid.whole.ice_heat.swap(&mut self.ice_heat);
        mid.skin_heat.swap(&mut self.skin_heat);
        mid.skin_water.swap(&mut self.skin_water);
        let parts = IceParts {
            categories: grid.column.categories as usize,
            area: self.ocean_area.as_slice(),
            used: self.ocean_used.as_slice(),
        };
        let taken = ocean_lists(
            &grid.xgrid,
            &self.ocean_flows,
            &parts,
            &mut self.ice_heat,
            &mut self.skin_heat,
            &mut self.skin_water,
        );
        mid.whole.ice_heat.swap(&mut self.ice_heat);
        mid.skin_heat.swap(&mut self.skin_heat);
        mid.skin_water.swap(&mut self.skin_water);
        taken
    }
}
