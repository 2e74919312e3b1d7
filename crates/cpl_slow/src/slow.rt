// The slow part of a coupling step.
ghost use Rattle.std.specs.Prelude.{◌≡◌};
ghost use Rattle.cpl_fixed.specs.Ranges.{AreRates};
ghost use Rattle.cpl_xgrid.specs.Grids.{IsGrid};
ghost use Rattle.cpl_laws.specs.Once.{IsNumbered};
ghost use Rattle.cpl_state.specs.States.{land_cells, ocean_cells};
ghost use Rattle.cpl_state.specs.Slow.{arrived, runoff_of, slow_after};
ghost use Rattle.cpl_state.specs.SlowLaws.{CanSlowAll, KeepsSlow};
ghost use Rattle.cpl_slow.specs.Ice.{AllCanSlow};
ghost use Rattle.cpl_slow.specs.Rooms.{IsSlowRoom};
ghost use Rattle.cpl_slow.specs.Sums.{HasRunOff, gain_sums};
ghost use Rattle.cpl_slow.specs.Steps.{CanDrain, HasArrived, HasIce, with_dry_land, with_slow_ice};

use crate::land::run_off;
use crate::room::SlowRoom;
use crate::tally::SlowTally;
use cpl_fixed::Rates;
use cpl_state::{Mid, Whole};
use cpl_xgrid::Grid;

// The land gives its runoff, which the outlets bring to the cells of the ocean's mosaic.
fn drain_land(grid: &Grid, rates: &Rates, whole: &mut Whole, room: &mut SlowRoom)
    requires grid { IsNumbered grid.now }
    requires rates { AreRates rates.now }
    requires can { CanDrain grid.now rates.now whole.old }
    requires room { IsSlowRoom grid.now room.old }
    ensures whole { whole.new ≡ with_dry_land grid.now rates.now whole.old }
    ensures runoff { HasRunOff grid.now rates.now whole.old room.new.runoffs.items }
    ensures arrived { HasArrived grid.now rates.now whole.old room.new.arrived.items }
    ensures room { IsSlowRoom grid.now room.new }
{
    run_off(
        grid.land.area.as_slice(),
        rates,
        whole.land_heat.as_mut_slice(),
        whole.land_water.as_mut_slice(),
        &mut room.runoffs,
    );
    room.drains.bring(&room.runoffs, &mut room.arrived);
}

// The ice slows with the runoff that arrived, and what it gives back flies to the ocean.
fn slow_ice(grid: &Grid, rates: &Rates, mid: &mut Mid, room: &mut SlowRoom)
    requires grid { IsGrid grid.now }
    requires rates { AreRates rates.now }
    requires mid { HasIce grid.now mid.old }
    requires can { AllCanSlow grid.now mid.old room.old.arrived.items }
    requires room { IsSlowRoom grid.now room.old }
    ensures value { mid.new ≡ with_slow_ice grid.now rates.now mid.old room.old.arrived.items }
    ensures room { IsSlowRoom grid.now room.new }
{
    room.ice.swap(&mut mid.whole);
    room.ice.slow(grid, rates, mid, &room.arrived);
    room.ice.swap(&mut mid.whole);
}

/// The slow part of a coupling step: the water that the land can't hold runs off through its outlets, and the ice takes it, freezes,
/// ridges and melts. What the ice gives back flies to the ocean. It takes no memory.
///
/// The state is lawful, nothing flies, and all its heat, water and salt are each at most 2^62 - 1. Skin and frazil are used up:
/// their lists stay as they are, and hold nothing that counts any more. The tally is of the runoff.
pub fn slow_step(grid: &Grid, rates: &Rates, mid: &mut Mid, room: &mut SlowRoom) -> SlowTally
    requires can { CanSlowAll grid.now rates.now mid.old }
    requires room { IsSlowRoom grid.now room.old }
    ensures value { mid.new ≡ record mid.old { whole = slow_after grid.now rates.now mid.old } }
    ensures gave { result.gave ≡ gain_sums (land_cells grid.now) (runoff_of grid.now rates.now mid.old.whole) }
    ensures took { result.took ≡ gain_sums (ocean_cells grid.now) (arrived grid.now rates.now mid.old.whole) }
    ensures keeps { KeepsSlow grid.now rates.now mid.old }
    ensures room { IsSlowRoom grid.now room.new }
{
    // The contracts of `cells` have the laws of numbers.
    let _airs = grid.air.mosaic.cells();
    let _lands = grid.land.mosaic.cells();
    let _oceans = grid.ocean.mosaic.cells();
    drain_land(grid, rates, &mut mid.whole, room);
    let tally = room.tally();
    slow_ice(grid, rates, mid, room);
    tally
}
