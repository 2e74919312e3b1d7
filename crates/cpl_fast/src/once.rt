// A fast step with its room.
ghost use Rattle.std.specs.Prelude.{◌≡◌, IfOk, OnErr, OnOk};
ghost use Rattle.cpl_state.specs.FastLaws.{CanStep, KeepsAll};
ghost use Rattle.cpl_state.specs.FastStep.{entered, fast_after, gave, left, took};
ghost use Rattle.cpl_fast.specs.Rooms.{before_step};

use crate::fast::{FastTally, step};
use crate::room::FastRoom;
use cpl_namelist::Names;
use cpl_state::Mid;
use cpl_xgrid::Grid;
use std::alloc::{AllocError, Global};

/// A fast step in room of its own, which is made and divided for it: see [`step`]. Where there is no memory, the state stands. Many
/// steps share a room by [`FastRoom`].
pub fn fast_step(
    alloc: Global,
    grid: &Grid,
    names: &Names,
    month: u32,
    mid: &mut Mid,
) -> Result<FastTally, AllocError>
    requires can { CanStep (before_step grid.now names.now.rates month mid.old) }
    ensures value { OnOk result (mid.new ≡ fast_after (before_step grid.now names.now.rates month mid.old)) }
    ensures entered { IfOk result (λ tally. tally.entered ≡ entered (before_step grid.now names.now.rates month mid.old)) }
    ensures left { IfOk result (λ tally. tally.left ≡ left (before_step grid.now names.now.rates month mid.old)) }
    ensures gave { IfOk result (λ tally. tally.gave ≡ gave (before_step grid.now names.now.rates month mid.old)) }
    ensures took { IfOk result (λ tally. tally.took ≡ took (before_step grid.now names.now.rates month mid.old)) }
    ensures exchange { IfOk result (λ tally. tally.gave ≡ tally.took) }
    ensures keeps { OnOk result (KeepsAll (before_step grid.now names.now.rates month mid.old)) }
    ensures memory { OnErr result (mid.new ≡ mid.old) }
{
    let mut room = FastRoom::new(alloc, grid)?;
    room.divide(grid, &names.rates, month, mid);
    Ok(step(grid, &names.rates, month, mid, &mut room))
}
