// What the ocean adds when a coupling step begins, and what it cuts off when it ends.
ghost use Rattle.std.specs.Prelude.{◌≡◌, ◌++◌, take, ◌+◌, ◌*◌, ◌<◌, ◌≤◌, ◌+ℤ◌, ◌^◌, ℕ, length, All};
ghost use Rattle.std.specs.List.{flat_map, range_with_len};
ghost use Rattle.cpl_fixed.specs.Amounts.{IsAmount, at};
ghost use Rattle.cpl_ice.specs.Cells.{IsFlight};
ghost use Rattle.cpl_transport.specs.Cuts.{cut_of, uncut};
ghost use Rattle.cpl_state.specs.Cut.{to_ice_numbers};
ghost use Rattle.cpl_sea.specs.Passes.{top_at};

use cpl_ice::{Salty, ToIce};
use cpl_transport::cut;

// Adds the three numbers that each cell has in a flight to the first numbers of three lists.
pub(crate) fn add_flight(
    flight: &[i64],
    count: usize,
    water: &mut [i64],
    heat: &mut [i64],
    salt: &mut [i64],
)
    requires flight { All IsAmount flight.now }
    requires flight_count { length flight.now ≡ 3 * count }
    requires few { count < 2 ^ 32 }
    requires water { All IsAmount water.old }
    requires heat { All IsAmount heat.old }
    requires salt { All IsAmount salt.old }
    requires water_count { count ≤ length water.old }
    requires heat_count { length heat.old ≡ length water.old }
    requires salt_count { length salt.old ≡ length water.old }
    ensures water { (n : ℕ) → n < count → at water.new n ≡ at water.old n +ℤ at flight.now (3 * n) }
    ensures heat { (n : ℕ) → n < count → at heat.new n ≡ at heat.old n +ℤ at flight.now (3 * n + 1) }
    ensures salt { (n : ℕ) → n < count → at salt.new n ≡ at salt.old n +ℤ at flight.now (3 * n + 2) }
    ensures water_below { (place : ℕ) → count ≤ place → at water.new place ≡ at water.old place }
    ensures heat_below { (place : ℕ) → count ≤ place → at heat.new place ≡ at heat.old place }
    ensures salt_below { (place : ℕ) → count ≤ place → at salt.new place ≡ at salt.old place }
{
    for n in 0..count {
        water[n] += flight[3 * n];
        heat[n] += flight[3 * n + 1];
        salt[n] += flight[3 * n + 2];
    }
}

// Writes the five numbers of a flight to the ice at a place.
fn write_flight(flight: ToIce, flights: &mut [i64], place: usize)
    requires flight { IsFlight flight }
    requires within { place + 5 ≤ length flights.old }
    ensures { take (place + 5) flights.new ≡ take place flights.old ++ to_ice_numbers flight }
{
    flights[place] = flight.frazil_water;
    flights[place + 1] = flight.frazil_heat;
    flights[place + 2] = flight.skin.water;
    flights[place + 3] = flight.skin.heat;
    flights[place + 4] = flight.skin.salt;
}

// Cuts what leaves the top layer off the cells of three lists, and tells it, five numbers for each cell.
pub(crate) fn cut_top(
    count: usize,
    water: &mut [i64],
    heat: &mut [i64],
    salt: &mut [i64],
    flights: &mut [i64],
)
    requires few { count < 2 ^ 32 }
    requires water { All IsAmount water.old }
    requires heat { All IsAmount heat.old }
    requires salt { All IsAmount salt.old }
    requires water_count { count ≤ length water.old }
    requires heat_count { length heat.old ≡ length water.old }
    requires salt_count { length salt.old ≡ length water.old }
    requires flights_count { length flights.old ≡ 5 * count }
    ensures top { (n : ℕ) → n < count → top_at water.new heat.new salt.new n ≡ uncut (top_at water.old heat.old salt.old n) }
    ensures below { (n : ℕ) → count ≤ n → top_at water.new heat.new salt.new n ≡ top_at water.old heat.old salt.old n }
    ensures flights { flights.new ≡ flat_map (λ n. to_ice_numbers (cut_of (top_at water.old heat.old salt.old n))) (range_with_len 0 count) }
{
    for n in 0..count {
        let mut top = Salty {
            water: water[n],
            heat: heat[n],
            salt: salt[n],
        };
        let flight = cut(&mut top);
        water[n] = top.water;
        heat[n] = top.heat;
        salt[n] = top.salt;
        write_flight(flight, flights, 5 * n);
    }
}
