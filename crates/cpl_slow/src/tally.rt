// What ran off in the slow part of a coupling step.
ghost use Rattle.std.specs.Prelude.{◌≡◌, length};
ghost use Rattle.cpl_slow.specs.Land.{gain_at};
ghost use Rattle.cpl_slow.specs.Sums.{AreGains, gain_sums};

use cpl_fixed::Gain;

/// What ran off in the slow part of a coupling step, heat and water: `gave` is the sum over the cells of the land, which gave it, and
/// `took` that over the cells of the ocean's mosaic, in which it arrived.
#[derive(Clone, Copy, Debug, PartialEq, Eq)]
pub struct SlowTally {
    pub gave: [i128; 2],
    pub took: [i128; 2],
}

// The sums of the heat and of the water of gains.
pub(crate) fn gain_sums(gains: &[Gain]) -> [i128; 2]
    requires { AreGains gains.now }
    ensures { result ≡ gain_sums (length gains.now) (gain_at gains.now) }
{
    let mut heat = 0i128;
    let mut water = 0i128;
    for gain in gains {
        heat += i128::from(gain.heat);
        water += i128::from(gain.water);
    }
    [heat, water]
}
