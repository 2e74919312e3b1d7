// Rates that the tests share.
ghost use Rattle.cpl_fixed.specs.Ranges.{AreRates, IsFromℤ};

use cpl_fixed::Rates;
use cpl_samples::example_rates;

/// The strongest exchange, with this heat capacity of the air.
pub(crate) fn strong(ca: i64) -> Rates
    requires { IsFromℤ 1 1_048_576 ca }
    ensures { AreRates result }
{
    Rates {
        ca,
        kh: 1_048_576,
        ke: 1_048_576,
        hs: 1_048_576,
        cl: 1,
        ..example_rates()
    }
}
