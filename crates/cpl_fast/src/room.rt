// Room for fast steps.
ghost use Rattle.std.specs.Prelude.{◌≡◌, ℕ, ◌*◌, ◌≤◌, length, IfOk};
ghost use Rattle.cpl_fixed.specs.declared.limits.TheConstants.{MOST_EXCHANGE_CELLS};
ghost use Rattle.cpl_state.specs.Diffusion.{IsAirMesh};
ghost use Rattle.cpl_state.specs.FastLaws.{CanStep};
ghost use Rattle.cpl_state.specs.States.{IsWhole};
ghost use Rattle.cpl_xgrid.specs.Grids.{IsGrid};
ghost use Rattle.cpl_fast.specs.Flows.{flow_at, no_flow};
ghost use Rattle.cpl_fast.specs.Rooms.{HasAreas, IsDivided, IsFastRoom, IsStillRoom, before_step};

use crate::flows::{Flow, NO_FLOW, Sky, Tables};
use crate::lists::surface_suns;
use crate::stages::View;
use crate::suns::list_still;
use crate::tables::{GridLinks, links_of, sum_land_areas, sum_ocean_areas};
use cpl_diffusion::{Room, Ways, make_room, make_ways};
use cpl_fixed::Rates;
use cpl_flux::{AirSide, Weather};
use cpl_state::{Mid, Whole};
use cpl_xgrid::{Grid, Surface};
use std::alloc::{AllocError, Global};

// What stands in the skies before a step has filled them.
const NO_SKY: Sky = Sky {
    air: AirSide {
        heat: 0,
        vapour: 0,
        area: 0,
    },
    weather: Weather {
        temperature: 0,
        humidity: 0,
    },
};

/// Room for the fast steps of a run over a grid: the faces of the air, the links of the exchange cells, and every list that a step
/// works with. It is made once and lent to each step, which then takes no memory.
#[derive(Drop)]
pub struct FastRoom {
    pub(crate) ways: Ways,
    pub(crate) diffusion: Room,
    // The land has one part a cell; the ocean's mosaic has open water and the categories.
    pub(crate) land: Tables,
    pub(crate) ocean: Tables,
    // The areas of the parts of all cells, as the state divides them, part by part, and how many of each cell's first parts are looked
    // at: no further one has an area.
    pub(crate) land_area: Vec<i64>,
    pub(crate) ocean_area: Vec<i64>,
    pub(crate) ocean_used: Vec<u8>,
    pub(crate) land_flows: Vec<Flow>,
    pub(crate) ocean_flows: Vec<Flow>,
    pub(crate) skies: Vec<Sky>,
    pub(crate) rain: Vec<i64>,
    // The air after the step, which changes places with that of the state.
    pub(crate) air_heat: Vec<i64>,
    pub(crate) air_vapour: Vec<i64>,
    // The lists of the land and of the ice, while they take what flowed. They hold no memory at any other time.
    pub(crate) land_heat: Vec<i64>,
    pub(crate) land_water: Vec<i64>,
    pub(crate) ice_heat: Vec<i64>,
    pub(crate) skin_water: Vec<i64>,
    pub(crate) skin_heat: Vec<i64>,
}

// The flows of so many elements, through which nothing flows yet.
fn no_flows(alloc: Global, count: usize) -> Result<Vec<Flow>, AllocError>
    requires { count ≤ 6 * MOST_EXCHANGE_CELLS }
    ensures count { IfOk result (λ flows. length flows.items ≡ count) }
    ensures none { IfOk result (λ flows. (n : ℕ) → flow_at flows.items n ≡ no_flow) }
{
    let flows = vec![in alloc; NO_FLOW; count]?;
    Ok(flows)
}

impl FastRoom {
    /// Room for the fast steps of a grid. Its time is linear in the cells and the exchange cells.
    pub fn new(alloc: Global, grid: &Grid) -> Result<FastRoom, AllocError>
        requires grid { IsGrid grid.now }
        requires air { IsAirMesh grid.now.air }
        ensures { IfOk result (IsFastRoom grid.now) }
    {
        let airs = grid.air.mosaic.cells();
        let lands = grid.land.mosaic.cells();
        let oceans = grid.ocean.mosaic.cells();
        let categories = grid.column.categories as usize;
        let GridLinks { land, ocean } = links_of(alloc, grid)?;
        let (land_rows, ocean_rows) = (land.len(), ocean.len());
        let width = categories + 1;
        Ok(FastRoom {
            ways: make_ways(alloc, &grid.air)?,
            diffusion: make_room(alloc, airs as usize)?,
            land: Tables::new(alloc, land, 1)?,
            ocean: Tables::new(alloc, ocean, width)?,
            land_area: vec![in alloc; 0; lands as usize]?,
            ocean_area: vec![in alloc; 0; oceans as usize * width]?,
            ocean_used: vec![in alloc; 0; oceans as usize]?,
            land_flows: no_flows(alloc, land_rows)?,
            ocean_flows: no_flows(alloc, ocean_rows * width)?,
            skies: vec![in alloc; NO_SKY; airs as usize]?,
            rain: vec![in alloc; 0; airs as usize]?,
            air_heat: vec![in alloc; 0; airs as usize]?,
            air_vapour: vec![in alloc; 0; airs as usize]?,
            land_heat: Vec::new(alloc),
            land_water: Vec::new(alloc),
            ice_heat: Vec::new(alloc),
            skin_water: Vec::new(alloc),
            skin_heat: Vec::new(alloc),
        })
    }

    /// Sets what stays through the fast steps of a coupling step: the areas of the elements and of the parts, which change with the parts
    /// of the ice alone, and the sun that the elements absorb in this month, 1 to 12. Nothing else flows yet. It takes no memory.
    pub fn divide(&mut self, grid: &Grid, rates: &Rates, month: u32, mid: &Mid)
        requires room { IsFastRoom grid.now self.old }
        requires can { CanStep (before_step grid.now rates.now month mid.now) }
        ensures { IsDivided (before_step grid.now rates.now month mid.now) self.new }
    {
        self.set_areas(grid, &mid.whole);
        self.set_suns(grid, rates, month, mid);
    }

    // Lets nothing flow any more, and sets the areas of the elements and of the parts of a state.
    fn set_areas(&mut self, grid: &Grid, whole: &Whole)
        requires room { IsFastRoom grid.now self.old }
        requires grid { IsGrid grid.now }
        requires whole { IsWhole grid.now whole.now }
        ensures room { IsStillRoom grid.now self.new }
        ensures areas { HasAreas grid.now whole.now self.new }
    {
        // The contracts of `cells` have the laws of numbers.
        let _airs = grid.air.mosaic.cells();
        let _lands = grid.land.mosaic.cells();
        let oceans = grid.ocean.mosaic.cells();
        list_still(&self.land, &mut self.land_flows);
        list_still(&self.ocean, &mut self.ocean_flows);
        self.land.divide_land(grid, whole);
        self.ocean.divide_ocean(grid, whole);
        sum_land_areas(&grid.xgrid, &self.land.areas, &mut self.land_area);
        sum_ocean_areas(
            &grid.xgrid,
            oceans,
            &self.ocean.areas,
            self.ocean.width,
            &mut self.ocean_area,
            &mut self.ocean_used,
        );
    }

    // Sets the sun that the elements absorb, where the areas of the state stand and nothing flows yet.
    fn set_suns(&mut self, grid: &Grid, rates: &Rates, month: u32, mid: &Mid)
        requires can { CanStep (before_step grid.now rates.now month mid.now) }
        requires room { IsStillRoom grid.now self.old }
        requires areas { HasAreas grid.now mid.now.whole self.old }
        ensures { IsDivided (before_step grid.now rates.now month mid.now) self.new }
    {
        let view = View {
            grid,
            rates,
            month,
            mid,
        };
        surface_suns(&view, Surface::Land, &self.land, &mut self.land_flows);
        surface_suns(&view, Surface::Ocean, &self.ocean, &mut self.ocean_flows);
    }
}
