// The flights are taken.
ghost use Rattle.std.specs.Prelude.{◌≡◌, ◌*◌, length};
ghost use Rattle.cpl_xgrid.specs.Grids.{IsGrid};
ghost use Rattle.cpl_state.specs.States.{ocean_cells, of_cell};
ghost use Rattle.cpl_state.specs.FastStep.{for_each};
ghost use Rattle.cpl_state.specs.CouplingStep.{no_flights, taken};
ghost use Rattle.cpl_slow.specs.Rooms.{CanTake};

use crate::blocks::put;
use cpl_state::Mid;
use cpl_xgrid::Grid;

// How many numbers of a cell fly to the ice: frazil water, frazil heat, skin water, skin heat and skin salt.
const FLIGHT: usize = 5;

// Nothing flies to a cell.
const NOTHING: [i64; FLIGHT] = [0; FLIGHT];

// Spreads the flights of cells over five lists, one for each place. Nothing flies any more.
fn spread(
    flights: &mut [i64],
    frazil_water: &mut [i64],
    frazil_heat: &mut [i64],
    skin_water: &mut [i64],
    skin_heat: &mut [i64],
    skin_salt: &mut [i64],
)
    requires flights { length flights.old ≡ 5 * length frazil_water.old }
    requires frazil_heat { length frazil_heat.old ≡ length frazil_water.old }
    requires skin_water { length skin_water.old ≡ length frazil_water.old }
    requires skin_heat { length skin_heat.old ≡ length frazil_water.old }
    requires skin_salt { length skin_salt.old ≡ length frazil_water.old }
    ensures frazil_water { frazil_water.new ≡ for_each (length frazil_water.old) (λ n. of_cell 5 n 0 flights.old) }
    ensures frazil_heat { frazil_heat.new ≡ for_each (length frazil_water.old) (λ n. of_cell 5 n 1 flights.old) }
    ensures skin_water { skin_water.new ≡ for_each (length frazil_water.old) (λ n. of_cell 5 n 2 flights.old) }
    ensures skin_heat { skin_heat.new ≡ for_each (length frazil_water.old) (λ n. of_cell 5 n 3 flights.old) }
    ensures skin_salt { skin_salt.new ≡ for_each (length frazil_water.old) (λ n. of_cell 5 n 4 flights.old) }
    ensures flights { flights.new ≡ no_flights (length flights.old) }
{
    for n in 0..frazil_water.len() {
        let start = n * FLIGHT;
        frazil_water[n] = flights[start];
        frazil_heat[n] = flights[start + 1];
        skin_water[n] = flights[start + 2];
        skin_heat[n] = flights[start + 3];
        skin_salt[n] = flights[start + 4];
        put(flights, start, FLIGHT, &NOTHING);
    }
}

/// The beginning of a coupling step: the ice takes the flight to it, as frazil and skin, and nothing flies any more. The list of
/// the flight to the ocean goes to `flight`, for the ocean to add it later: cell by cell water, heat and salt. The state has the list
/// from there, of as many numbers. What it, skin and frazil held before is of no use. It takes no memory.
pub fn take_flights(grid: &Grid, mid: &mut Mid, flight: &mut Vec<i64>)
    requires can { CanTake grid.now mid.old }
    requires count { length flight.old.items ≡ 3 * ocean_cells grid.now }
    ensures value { mid.new ≡ taken grid.now mid.old.whole }
    ensures flight { flight.new.items ≡ mid.old.whole.to_ocean }
{
    flight.fill(0);
    mid.whole.to_ocean.swap(flight);
    spread(
        mid.whole.to_ice.as_mut_slice(),
        mid.frazil_water.as_mut_slice(),
        mid.frazil_heat.as_mut_slice(),
        mid.skin_water.as_mut_slice(),
        mid.skin_heat.as_mut_slice(),
        mid.skin_salt.as_mut_slice(),
    );
}
