// Air, land and ice in a coupling step.
ghost use Rattle.std.specs.Prelude.{◌≡◌, ◌*◌, ◌<◌, ◌≤◌, ℕ, length};
ghost use Rattle.cpl_state.specs.CouplingStep.{before, fast_by, step_arrived, step_runoff, surface_after};
ghost use Rattle.cpl_state.specs.FastLaws.{CanStep};
ghost use Rattle.cpl_state.specs.States.{land_cells, ocean_cells};
ghost use Rattle.cpl_fast.specs.Rooms.{IsDivided, IsFastRoom};
ghost use Rattle.cpl_slow.specs.Rooms.{IsSlowRoom};
ghost use Rattle.cpl_slow.specs.Sums.{gain_sums};
ghost use Rattle.cpl_whole.specs.Rooms.{CanCoupleOn, HasSkins};
ghost use Rattle.cpl_whole.specs.Tallies.{IsInRange, all_fast_sums, fast_sums};

use crate::tallies::{NONE, SurfaceTally, both};
use cpl_fast::{FastRoom, FastTally, step};
use cpl_namelist::Names;
use cpl_slow::{SlowRoom, slow_step, take_flights};
use cpl_state::Mid;
use cpl_xgrid::Grid;

// The fast steps of a coupling step, in a room in which the areas of the state and the sun stand: what they moved together.
fn go_fast(grid: &Grid, names: &Names, month: u32, mid: &mut Mid, room: &mut FastRoom) -> FastTally
    requires can { (i : ℕ) → i < names.now.fast → CanStep (before grid.now names.now month (fast_by i grid.now names.now month mid.old)) }
    requires range { (i : ℕ) → i ≤ names.now.fast → IsInRange (fast_sums i grid.now names.now month mid.old) }
    requires room { IsDivided (before grid.now names.now month mid.old) room.old }
    ensures value { mid.new ≡ fast_by names.now.fast grid.now names.now month mid.old }
    ensures tally { result ≡ fast_sums names.now.fast grid.now names.now month mid.old }
    ensures room { IsFastRoom grid.now room.new }
{
    let mut sum = NONE;
    for _done in 0..names.fast {
        let one = step(grid, &names.rates, month, mid, room);
        sum = both(&sum, &one);
    }
    sum
}

// Air, land and ice go on by a coupling step: the ice takes the flight to it, then the fast steps, then the slow step. The flight to
// the ocean from before goes to `flight`.
pub(crate) fn go_surface(
    grid: &Grid,
    names: &Names,
    mid: &mut Mid,
    flight: &mut Vec<i64>,
    fast: &mut FastRoom,
    slow: &mut SlowRoom,
) -> SurfaceTally
    requires can { CanCoupleOn grid.now names.now mid.old.whole }
    requires skins { HasSkins grid.now mid.old }
    requires count { length flight.old.items ≡ 3 * ocean_cells grid.now }
    requires fast { IsFastRoom grid.now fast.old }
    requires slow { IsSlowRoom grid.now slow.old }
    ensures whole { mid.new.whole ≡ surface_after grid.now names.now mid.old.whole }
    ensures skins { HasSkins grid.now mid.new }
    ensures flight { flight.new.items ≡ mid.old.whole.to_ocean }
    ensures fast { IsFastRoom grid.now fast.new }
    ensures slow { IsSlowRoom grid.now slow.new }
    ensures moved { result.fast ≡ all_fast_sums grid.now names.now mid.old.whole }
    ensures gave { result.slow.gave ≡ gain_sums (land_cells grid.now) (step_runoff grid.now names.now mid.old.whole) }
    ensures took { result.slow.took ≡ gain_sums (ocean_cells grid.now) (step_arrived grid.now names.now mid.old.whole) }
{
    let month = names.month_of(mid.whole.elapsed);
    take_flights(grid, mid, flight);
    fast.divide(grid, &names.rates, month, mid);
    let moved = go_fast(grid, names, month, mid, fast);
    let drained = slow_step(grid, &names.rates, mid, slow);
    SurfaceTally {
        fast: moved,
        slow: drained,
    }
}
