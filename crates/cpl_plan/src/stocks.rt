// What a state holds.
ghost use Rattle.std.specs.Prelude.{◌≡◌, ◌+◌, ◌≤◌, ◌<◌, ◌*◌, length};
ghost use Rattle.cpl_fixed.specs.Totals.{total_of};
ghost use Rattle.cpl_xgrid.specs.Grids.{IsGrid};
ghost use Rattle.cpl_state.specs.States.{IsWhole};
ghost use Rattle.cpl_plan.specs.Sums.{AreAdded, AreFew, AreHoldings, AreTotals, HasFew, HasRoom, IsSmall};

use cpl_state::Whole;
use cpl_xgrid::Grid;

/// What the parts of the model hold of a quantity, and what flies between ice and ocean. The sums are exact: they may pass 64 bits.
#[derive(Clone, Copy, Debug, PartialEq, Eq)]
pub struct Stocks {
    pub air: i128,
    pub land: i128,
    pub ice: i128,
    pub ocean: i128,
    pub to_ice: i128,
    pub to_ocean: i128,
}

/// The stocks of all three quantities, each in units of its own: heat on the project's scale, water, vapour and ice in units of
/// water, and salt, of which neither air nor land nor ice has any.
#[derive(Clone, Copy, Debug, PartialEq, Eq)]
pub struct Holdings {
    pub heat: Stocks,
    pub water: Stocks,
    pub salt: Stocks,
}

// What half a word of 64 bits can hold, and one more.
const HALF: u64 = 4_294_967_296;

// The sum of amounts: the low and the high halves of their words are summed apart, and neither sum passes a word.
fn total(amounts: &[i64]) -> i128
    requires { AreFew amounts.now }
    ensures value { result ≡ total_of amounts.now }
    ensures small { IsSmall result }
{
    let mut low = 0u64;
    let mut high = 0u64;
    for amount in amounts {
        let word = *amount as u64;
        low += word % HALF;
        high += word / HALF;
    }
    (u128::from(high) * u128::from(HALF) + u128::from(low)) as i128
}

// Adds the numbers of the n-th cell to a sum for each place, where each cell has as many numbers as there are sums.
fn add_cell<const N: usize>(sums: &mut [u128; N], amounts: &[i64], n: usize)
    requires amounts { AreFew amounts.now }
    requires within { n * N + N ≤ length amounts.now }
    requires room { HasRoom N n sums.old }
    ensures sums { AreAdded N n amounts.now sums.old sums.new }
{
    let start = n * N;
    for k in 0..N {
        sums[k] += u128::from(amounts[start + k] as u64);
    }
}

// The sums over cells of the numbers at each place.
fn totals<const N: usize>(cells: usize, amounts: &[i64]) -> [u128; N]
    requires amounts { AreFew amounts.now }
    requires some { 0 < N }
    requires length { length amounts.now ≡ N * cells }
    ensures { AreTotals N cells amounts.now result }
{
    let mut sums = [0; N];
    for n in 0..cells {
        add_cell(&mut sums, amounts, n);
    }
    sums
}

// A lawful state has so few numbers that none of its sums is large. No work is done.
pub(crate) fn few_numbers(grid: &Grid, whole: &Whole)
    requires grid { IsGrid grid.now }
    requires whole { IsWhole grid.now whole.now }
    ensures { HasFew whole.now }
{
    let _air = grid.air.mosaic.cells();
    let _land = grid.land.mosaic.cells();
    let _ocean = grid.ocean.mosaic.cells();
}

/// What a state holds, part by part. Each list is gone through once. It takes no memory.
pub fn holdings_of(grid: &Grid, whole: &Whole) -> Holdings
    requires grid { IsGrid grid.now }
    requires whole { IsWhole grid.now whole.now }
    ensures { AreHoldings grid.now whole.now result }
{
    few_numbers(grid, whole);
    let cells = grid.ocean.mosaic.cells() as usize;
    let to_ice: [u128; 5] = totals(cells, whole.to_ice.as_slice());
    let to_ocean: [u128; 3] = totals(cells, whole.to_ocean.as_slice());
    let heat = Stocks {
        air: total(whole.air_heat.as_slice()),
        land: total(whole.land_heat.as_slice()),
        ice: total(whole.ice_heat.as_slice()),
        ocean: total(whole.heat.as_slice()),
        to_ice: (to_ice[1] + to_ice[3]) as i128,
        to_ocean: to_ocean[1] as i128,
    };
    let water = Stocks {
        air: total(whole.air_vapour.as_slice()),
        land: total(whole.land_water.as_slice()),
        ice: total(whole.ice.as_slice()),
        ocean: total(whole.water.as_slice()),
        to_ice: (to_ice[0] + to_ice[2]) as i128,
        to_ocean: to_ocean[0] as i128,
    };
    let salt = Stocks {
        air: 0,
        land: 0,
        ice: 0,
        ocean: total(whole.salt.as_slice()),
        to_ice: to_ice[4] as i128,
        to_ocean: to_ocean[2] as i128,
    };
    Holdings { heat, water, salt }
}
