// What a coupling step moved.
ghost use Rattle.std.specs.Prelude.{◌≡◌};
ghost use Rattle.cpl_whole.specs.Exchanges.{crossed};

use crate::tallies::SurfaceTally;
use cpl_plan::Holdings;

/// What a coupling step moved. `entered` is the sun that was absorbed and `left` the heat to space. `gave` is what the givers' cells
/// gave and `took` what the takers' cells took: heat, water and salt from the air to the land, from the air to the ice, from the land
/// to the ice, from the ocean to the ice and from the ice to the ocean. What flies between ice and ocean was given a step before it is
/// taken.
#[derive(Clone, Copy, Debug, PartialEq, Eq)]
pub struct StepTally {
    pub entered: i64,
    pub left: i64,
    pub gave: [i128; 15],
    pub took: [i128; 15],
}

// What crossed of the five exchanges: in the fast steps, as runoff, and what flies between ice and ocean.
fn crossed(fast: &[i128; 4], slow: &[i128; 2], flying: &Holdings) -> [i128; 15]
    ensures { result ≡ crossed fast.now slow.now flying.now }
{
    let Holdings { heat, water, salt } = *flying;
    [
        fast[0],
        fast[1],
        0,
        fast[2],
        fast[3],
        0,
        slow[0],
        slow[1],
        0,
        heat.to_ice,
        water.to_ice,
        salt.to_ice,
        heat.to_ocean,
        water.to_ocean,
        salt.to_ocean,
    ]
}

// What a coupling step moved, from what the states before and after it hold: what ocean and ice took of each other flew before it,
// and what they gave flies after it.
pub(crate) fn step_tally(moved: &SurfaceTally, before: &Holdings, after: &Holdings) -> StepTally
    ensures entered { result.entered ≡ moved.now.fast.entered }
    ensures left { result.left ≡ moved.now.fast.left }
    ensures gave { result.gave ≡ crossed moved.now.fast.gave moved.now.slow.gave after.now }
    ensures took { result.took ≡ crossed moved.now.fast.took moved.now.slow.took before.now }
{
    StepTally {
        entered: moved.fast.entered,
        left: moved.fast.left,
        gave: crossed(&moved.fast.gave, &moved.slow.gave, after),
        took: crossed(&moved.fast.took, &moved.slow.took, before),
    }
}
