// The ocean in a coupling step.
ghost use Rattle.std.specs.Prelude.{◌≡◌, ◌*◌, ◌≤◌, ℕ, length, All};
ghost use Rattle.cpl_fixed.specs.Amounts.{IsAmount};
ghost use Rattle.cpl_fixed.specs.Ranges.{AreRates};
ghost use Rattle.cpl_state.specs.CouplingStep.{sea_of, with_sea};
ghost use Rattle.cpl_state.specs.States.{layers, ocean_cells};
ghost use Rattle.cpl_sea.specs.Rooms.{IsSeaRoom};
ghost use Rattle.cpl_sea.specs.Seas.{IsSea};
ghost use Rattle.cpl_whole.specs.Seas.{flown_by};

use cpl_namelist::Names;
use cpl_sea::SeaRoom;
use cpl_state::Whole;
use cpl_xgrid::Grid;

// The ocean goes on by a coupling step: it adds a flight, makes its steps and is cut. The flight to it that the state has stands.
pub(crate) fn go_ocean(
    grid: &Grid,
    names: &Names,
    whole: &mut Whole,
    flight: &mut Vec<i64>,
    room: &mut SeaRoom,
)
    requires room { IsSeaRoom grid.now.ocean (layers grid.now) room.old }
    requires rates { AreRates names.now.rates }
    requires sea { IsSea grid.now.ocean (layers grid.now) (sea_of whole.old) }
    requires flight { All IsAmount flight.old.items }
    requires count { length flight.old.items ≡ 3 * ocean_cells grid.now }
    requires to_ice { length whole.old.to_ice ≡ 5 * ocean_cells grid.now }
    requires steps { (i : ℕ) → i ≤ names.now.ocean_steps → IsSea grid.now.ocean (layers grid.now) (flown_by i grid.now names.now (sea_of whole.old) flight.old.items) }
    ensures value { whole.new ≡ with_sea grid.now whole.old (flown_by names.now.ocean_steps grid.now names.now (sea_of whole.old) flight.old.items) }
    ensures flight { flight.new.items ≡ flight.old.items }
    ensures room { IsSeaRoom grid.now.ocean (layers grid.now) room.new }
{
    whole.to_ocean.swap(flight);
    room.add(grid, whole);
    whole.to_ocean.swap(flight);
    for _done in 0..names.ocean_steps {
        room.step(grid, &names.rates, whole);
    }
    room.cut(grid, whole);
}
