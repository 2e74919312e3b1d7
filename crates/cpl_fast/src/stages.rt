// The stages of a fast step, one after another, in its room.
ghost use Rattle.std.specs.Prelude.{◌≡◌};
ghost use Rattle.cpl_xgrid.specs.declared.parts.Surface.TheVariants.{Land, Ocean};
ghost use Rattle.cpl_state.specs.FastLaws.{CanStep};
ghost use Rattle.cpl_state.specs.FastStep.{entered, left, rain_on};
ghost use Rattle.cpl_fast.specs.Stages.{HasAir, HasFlows, HasRained, IsFlown, IsLawful, IsSeen, dry, given, step_of};

use crate::air::air_lists;
use crate::lists::{surface_flows, surface_rain};
use crate::room::FastRoom;
use crate::sums::{FlowLists, Sums, Taken};
use cpl_diffusion::diffuse;
use cpl_fixed::Rates;
use cpl_state::Mid;
use cpl_xgrid::{Grid, Surface};

/// What a fast step goes by: the grid, the rates, the month, 1 to 12, and the state before the step.
#[derive(Clone, Copy)]
pub(crate) struct View<'a> {
    pub(crate) grid: &'a Grid,
    pub(crate) rates: &'a Rates,
    pub(crate) month: u32,
    pub(crate) mid: &'a Mid,
}

/// What flowed through all elements of either list, before it rained.
#[derive(Clone, Copy)]
pub(crate) struct Flown {
    pub(crate) land: Sums,
    pub(crate) ocean: Sums,
}

/// What the cells of the air moved: the sun that was absorbed, and what they gave to the elements of both lists.
#[derive(Clone, Copy)]
pub(crate) struct Given {
    pub(crate) entered: i64,
    pub(crate) land: Taken,
    pub(crate) ocean: Taken,
}

// A step that can be made is lawful. The contracts of `cells` have the laws of numbers.
pub(crate) fn step_law(view: &View)
    requires { CanStep (step_of view.now) }
    ensures { IsLawful (step_of view.now) }
{
    let _airs = view.grid.air.mosaic.cells();
    let _lands = view.grid.land.mosaic.cells();
    let _oceans = view.grid.ocean.mosaic.cells();
}

impl FastRoom {
    // What flows through all elements, before it rains. The result has the sums of it.
    pub(crate) fn flow(&mut self, view: &View) -> Flown
        requires { IsSeen (step_of view.now) self.old }
        ensures flows { HasFlows (step_of view.now) dry self.new }
        ensures flown { IsFlown (step_of view.now) result }
    {
        let land = surface_flows(
            view,
            Surface::Land,
            &self.skies,
            &self.land,
            &self.land_area,
            &mut self.land_flows,
        );
        let ocean = surface_flows(
            view,
            Surface::Ocean,
            &self.skies,
            &self.ocean,
            &self.ocean_area,
            &mut self.ocean_flows,
        );
        Flown { land, ocean }
    }

    // The cells of the air give and take, and it rains. The result is the heat to space.
    pub(crate) fn let_rain(&mut self, view: &View) -> i64
        requires { HasFlows (step_of view.now) dry self.old }
        ensures left { result ≡ left (step_of view.now) }
        ensures flows { HasFlows (step_of view.now) dry self.new }
        ensures rained { HasRained (step_of view.now) self.new }
    {
        let flows = FlowLists {
            land: self.land_flows.as_slice(),
            ocean: self.ocean_flows.as_slice(),
            tables: &self.ocean,
        };
        let left = air_lists(
            view.rates,
            &view.grid.xgrid,
            &self.skies,
            &flows,
            &mut self.air_heat,
            &mut self.air_vapour,
            &mut self.rain,
        );
        left as i64
    }

    // The rain falls on all elements. The result is what the cells of the air gave to them, by what flowed before.
    pub(crate) fn rain_down(&mut self, view: &View, flown: &Flown) -> Given
        requires flows { HasFlows (step_of view.now) dry self.old }
        requires flown { IsFlown (step_of view.now) flown.now }
        requires rained { HasRained (step_of view.now) self.old }
        ensures entered { result.entered ≡ entered (step_of view.now) }
        ensures land { result.land ≡ given (step_of view.now) Land }
        ensures ocean { result.ocean ≡ given (step_of view.now) Ocean }
        ensures flows { HasFlows (step_of view.now) (rain_on (step_of view.now)) self.new }
        ensures rained { HasRained (step_of view.now) self.new }
    {
        let land = surface_rain(
            view,
            Surface::Land,
            &self.skies,
            &self.rain,
            &self.land,
            &mut self.land_flows,
            flown.land,
        );
        let ocean = surface_rain(
            view,
            Surface::Ocean,
            &self.skies,
            &self.rain,
            &self.ocean,
            &mut self.ocean_flows,
            flown.ocean,
        );
        Given {
            entered: (flown.land.sun + flown.ocean.sun) as i64,
            land,
            ocean,
        }
    }

    // The air diffuses.
    pub(crate) fn diffuse(&mut self, view: &View)
        requires flows { HasFlows (step_of view.now) (rain_on (step_of view.now)) self.old }
        requires rained { HasRained (step_of view.now) self.old }
        ensures flows { HasFlows (step_of view.now) (rain_on (step_of view.now)) self.new }
        ensures air { HasAir (step_of view.now) self.new }
    {
        diffuse(
            &view.grid.air,
            &self.ways,
            &mut self.air_heat,
            &mut self.diffusion,
        );
        diffuse(
            &view.grid.air,
            &self.ways,
            &mut self.air_vapour,
            &mut self.diffusion,
        );
    }
}
