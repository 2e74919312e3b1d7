// Tallies of fast steps, added up.
ghost use Rattle.std.specs.Prelude.{◌≡◌};
ghost use Rattle.cpl_whole.specs.Tallies.{FitWide, HasHeat, IsInRange, both, each_sum};

use cpl_fast::FastTally;
use cpl_slow::SlowTally;

/// What a coupling step moved between the air, the land and the ice: in all its fast steps, and the runoff.
#[derive(Clone, Copy, Debug, PartialEq, Eq)]
pub struct SurfaceTally {
    pub fast: FastTally,
    pub slow: SlowTally,
}

// Nothing moved yet.
pub(crate) const NONE: FastTally = FastTally {
    entered: 0,
    left: 0,
    gave: [0; 4],
    took: [0; 4],
};

// The sums of the numbers at each place.
fn each_sum(a: &[i128; 4], b: &[i128; 4]) -> [i128; 4]
    requires { FitWide (each_sum a.now b.now) }
    ensures { result ≡ each_sum a.now b.now }
{
    [a[0] + b[0], a[1] + b[1], a[2] + b[2], a[3] + b[3]]
}

// What two tallies have together.
pub(crate) fn both(a: &FastTally, b: &FastTally) -> FastTally
    requires first { HasHeat a.now }
    requires second { HasHeat b.now }
    requires sum { IsInRange (both a.now b.now) }
    ensures { result ≡ both a.now b.now }
{
    FastTally {
        entered: a.entered + b.entered,
        left: a.left + b.left,
        gave: each_sum(&a.gave, &b.gave),
        took: each_sum(&a.took, &b.took),
    }
}
