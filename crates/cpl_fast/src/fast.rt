// The fast step.
ghost use Rattle.std.specs.Prelude.{◌≡◌};
ghost use Rattle.cpl_state.specs.FastLaws.{CanStep, KeepsAll};
ghost use Rattle.cpl_state.specs.FastStep.{entered, fast_after, gave, left, rain_on, took};
ghost use Rattle.cpl_xgrid.specs.declared.parts.Surface.TheVariants.{Land, Ocean};
ghost use Rattle.cpl_fast.specs.Rooms.{IsDivided, before_step};
ghost use Rattle.cpl_fast.specs.Stages.{HasAir, HasFlows, HoldsAir, given, step_of, with_air};

use crate::room::FastRoom;
use crate::stages::{Given, View};
use cpl_fixed::Rates;
use cpl_state::Mid;
use cpl_xgrid::Grid;

/// What a fast step moved. `entered` is the sun that was absorbed and `left` the heat to space. `gave` is what the cells of the air
/// gave and `took` what the cells of the surface took: heat and water between air and land, then heat and water between air and ice.
#[derive(Clone, Copy, Debug, PartialEq, Eq)]
pub struct FastTally {
    pub entered: i64,
    pub left: i64,
    pub gave: [i128; 4],
    pub took: [i128; 4],
}

/// A fast step, in a room in which the areas of this state and the sun that its elements absorb stand: what flows between the air and
/// the surface through every element, all by the state before the step; then the cells of the air, with rain and diffusion, of the land
/// and of the ice. It takes no memory. The month is 1 to 12. The formulas are defined by this project.
pub fn step(grid: &Grid, rates: &Rates, month: u32, mid: &mut Mid, room: &mut FastRoom) -> FastTally
    requires can { CanStep (before_step grid.now rates.now month mid.old) }
    requires room { IsDivided (before_step grid.now rates.now month mid.old) room.old }
    ensures value { mid.new ≡ fast_after (before_step grid.now rates.now month mid.old) }
    ensures entered { result.entered ≡ entered (before_step grid.now rates.now month mid.old) }
    ensures left { result.left ≡ left (before_step grid.now rates.now month mid.old) }
    ensures gave { result.gave ≡ gave (before_step grid.now rates.now month mid.old) }
    ensures took { result.took ≡ took (before_step grid.now rates.now month mid.old) }
    // Nothing is lost between air and surface.
    ensures exchange { result.gave ≡ result.took }
    ensures keeps { KeepsAll (before_step grid.now rates.now month mid.old) }
    ensures room { IsDivided (before_step grid.now rates.now month mid.new) room.new }
{
    let (left, given) = room.fill(&View {
        grid,
        rates,
        month,
        mid,
    });
    room.swap_air(mid);
    let land = room.take_on_land(grid, mid);
    let ice = room.take_on_ice(grid, mid);
    FastTally {
        entered: given.entered,
        left,
        gave: [
            given.land.heat,
            given.land.water,
            given.ocean.heat,
            given.ocean.water,
        ],
        took: [land.heat, land.water, ice.heat, ice.water],
    }
}

impl FastRoom {
    // What flows, and the air after the step. They stand in the room. The results are the heat to space, and what the air moved.
    fn fill(&mut self, view: &View) -> (i64, Given)
        requires can { CanStep (step_of view.now) }
        requires room { IsDivided (step_of view.now) self.old }
        ensures flows { HasFlows (step_of view.now) (rain_on (step_of view.now)) self.new }
        ensures air { HasAir (step_of view.now) self.new }
        ensures left { result.0 ≡ left (step_of view.now) }
        ensures entered { result.1.entered ≡ entered (step_of view.now) }
        ensures land { result.1.land ≡ given (step_of view.now) Land }
        ensures ocean { result.1.ocean ≡ given (step_of view.now) Ocean }
    {
        // The contracts of `cells` have the laws of numbers.
        let _airs = view.grid.air.mosaic.cells();
        let _lands = view.grid.land.mosaic.cells();
        let _oceans = view.grid.ocean.mosaic.cells();
        self.look_up(view.grid, view.rates, view.month, view.mid);
        let flown = self.flow(view);
        let left = self.let_rain(view);
        let given = self.rain_down(view, &flown);
        self.diffuse(view);
        (left, given)
    }

    // The air after the step changes places with that of the state.
    fn swap_air(&mut self, mid: &mut Mid)
        ensures mid { mid.new ≡ with_air mid.old self.old }
        ensures air { HoldsAir mid.old self.new }
        ensures others { self.new ≡ record self.old { air_heat = self.new.air_heat; air_vapour = self.new.air_vapour } }
    {
        mid.whole.air_heat.swap(&mut self.air_heat);
        mid.whole.air_vapour.swap(&mut self.air_vapour);
    }
}
