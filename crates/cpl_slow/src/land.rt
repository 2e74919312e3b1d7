// The land runs off.
ghost use Rattle.std.specs.Prelude.{◌≡◌, ◌<◌, ℕ, length};
ghost use Rattle.cpl_fixed.specs.Ranges.{AreRates};
ghost use Rattle.cpl_land.specs.Land.{IsLandCell, dried, runoff};
ghost use Rattle.cpl_fixed.specs.Amounts.{at};
ghost use Rattle.cpl_slow.specs.Land.{cell_of_lists, gain_at};

use cpl_fixed::{Gain, Rates};
use cpl_land::LandCell;

// Each cell gives its runoff.
pub(crate) fn run_off(
    area: &[i64],
    rates: &Rates,
    heat: &mut [i64],
    water: &mut [i64],
    runoffs: &mut [Gain],
)
    requires rates { AreRates rates.now }
    requires heat { length heat.old ≡ length area.now }
    requires water { length water.old ≡ length area.now }
    requires runoffs { length runoffs.old ≡ length area.now }
    requires cells { (n : ℕ) → n < length area.now → IsLandCell (cell_of_lists heat.old water.old area.now n) }
    ensures heat { (n : ℕ) → n < length area.now → at heat.new n ≡ (dried rates.now (cell_of_lists heat.old water.old area.now n)).heat }
    ensures water { (n : ℕ) → n < length area.now → at water.new n ≡ (dried rates.now (cell_of_lists heat.old water.old area.now n)).water }
    ensures runoff { (n : ℕ) → n < length area.now → gain_at runoffs.new n ≡ runoff rates.now (cell_of_lists heat.old water.old area.now n) }
{
    for n in 0..area.len() {
        let mut cell = LandCell {
            heat: heat[n],
            water: water[n],
            area: area[n],
        };
        runoffs[n] = cell.slow(rates);
        heat[n] = cell.heat;
        water[n] = cell.water;
    }
}
