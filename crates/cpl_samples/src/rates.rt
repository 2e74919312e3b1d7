// Rates of the worked examples.
ghost use Rattle.cpl_fixed.specs.Ranges.{AreRates};

use cpl_fixed::Rates;

/// The namelist's own rates, but for those of the worked example: rain from the first unit on, and as much evaporation as heat.
pub fn example_rates() -> Rates
    ensures { AreRates result }
{
    Rates {
        ca: 10,
        kh: 1024,
        ke: 65536,
        hs: 1000,
        ko: 1024,
        rc: 0,
        month: [1000; 12],
        cl: 10,
        cap: 10,
        land_albedo: 200,
        h0: 100,
        bounds: [10, 20, 40, 80],
        ice_albedo: 600,
        water_albedo: 100,
        slope: 8,
        mix: 4,
    }
}
