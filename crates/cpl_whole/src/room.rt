// Room for coupling steps.
ghost use Rattle.std.specs.Prelude.{◌≡◌, ◌*◌, length, IfOk};
ghost use Rattle.cpl_state.specs.States.{ocean_cells};
ghost use Rattle.cpl_course.specs.Course.{IsGround};
ghost use Rattle.cpl_whole.specs.Rooms.{HasLength, HasSkins, IsStepRoom};

use cpl_fast::FastRoom;
use cpl_fixed::List;
use cpl_sea::SeaRoom;
use cpl_slow::SlowRoom;
use cpl_state::{Mid, Whole};
use cpl_xgrid::Grid;
use std::alloc::{AllocError, Global};

/// Room for the coupling steps of a run over a grid. It is made once, and lent to each step, which then takes no memory.
#[derive(Drop)]
pub struct StepRoom {
    pub(crate) fast: FastRoom,
    pub(crate) slow: SlowRoom,
    pub(crate) sea: SeaRoom,
    // Skin and frazil. Its state changes places with that of the caller while air, land and ice go on.
    pub(crate) mid: Mid,
    // The flight that the ocean adds. It changes places with that of the state, to which the ice writes the next one before.
    pub(crate) flight: Vec<i64>,
}

// No items. It takes no memory.
fn nothing(alloc: Global) -> List<i64> {
    List::from_vec(Vec::new(alloc))
}

// No state yet. It takes no memory.
fn no_state(alloc: Global) -> Whole {
    Whole {
        elapsed: 0,
        air_heat: nothing(alloc),
        air_vapour: nothing(alloc),
        air_sun: nothing(alloc),
        land_heat: nothing(alloc),
        land_water: nothing(alloc),
        parts: nothing(alloc),
        ice: nothing(alloc),
        ice_heat: nothing(alloc),
        water: nothing(alloc),
        heat: nothing(alloc),
        salt: nothing(alloc),
        faces: nothing(alloc),
        to_ice: nothing(alloc),
        to_ocean: nothing(alloc),
    }
}

// A number for each of so many cells.
fn zeros(alloc: Global, cells: usize) -> Result<List<i64>, AllocError>
    ensures { IfOk result (HasLength cells) }
{
    Ok(List::from_vec(vec![in alloc; 0; cells]?))
}

// Lists for the skin and the frazil, with no state yet.
fn no_mid(alloc: Global, grid: &Grid) -> Result<Mid, AllocError>
    ensures { IfOk result (HasSkins grid.now) }
{
    let cells = grid.ocean.mosaic.cells() as usize;
    Ok(Mid {
        whole: no_state(alloc),
        skin_water: zeros(alloc, cells)?,
        skin_heat: zeros(alloc, cells)?,
        skin_salt: zeros(alloc, cells)?,
        frazil_water: zeros(alloc, cells)?,
        frazil_heat: zeros(alloc, cells)?,
    })
}

// A number for each place of the flight to the ocean.
fn no_flight(alloc: Global, grid: &Grid) -> Result<Vec<i64>, AllocError>
    ensures { IfOk result (λ flight. length flight.items ≡ 3 * ocean_cells grid.now) }
{
    vec![in alloc; 0; 3 * grid.ocean.mosaic.cells() as usize]
}

impl StepRoom {
    /// Room for the coupling steps of a grid. Its time is linear in the cells, the exchange cells and the outlets.
    pub fn new(alloc: Global, grid: &Grid) -> Result<StepRoom, AllocError>
        requires { IsGround grid.now }
        ensures { IfOk result (IsStepRoom grid.now) }
    {
        Ok(StepRoom {
            fast: FastRoom::new(alloc, grid)?,
            slow: SlowRoom::new(alloc, grid)?,
            sea: SeaRoom::new(alloc, grid)?,
            mid: no_mid(alloc, grid)?,
            flight: no_flight(alloc, grid)?,
        })
    }
}
