// A cell of the land.
ghost use Rattle.std.specs.Prelude.{◌≡◌, pos, ◌+ℤ◌, ◌-ℤ◌, ◌≤ℤ◌};
ghost use Rattle.cpl_fixed.specs.Ranges.{AreRates};
ghost use Rattle.cpl_land.specs.Land.{IsLandCell, CanGain, gained, dried, runoff};

use cpl_fixed::{Gain, Rates, WATER_HEAT};

/// A cell of the land: its heat, its water and its area. None is negative.
#[derive(Clone, Copy, Debug, PartialEq, Eq)]
pub struct LandCell {
    pub heat: i64,
    pub water: i64,
    pub area: i64,
}

impl LandCell {
    /// The cell after a fast step: it gains heat and water, and loses at most what is there.
    pub fn fast(&mut self, gain: Gain)
        requires cell { IsLandCell self.old }
        requires gain { CanGain self.old gain }
        ensures value { self.new ≡ gained self.old gain }
        ensures cell { IsLandCell self.new }
    {
        self.heat += gain.heat;
        self.water += gain.water;
    }

    /// What runs off, which leaves the cell: the water above what its area holds, with its heat at freezing and at most half of
    /// the cell's. The formula is defined by this project.
    pub fn slow(&mut self, rates: &Rates) -> Gain
        requires cell { IsLandCell self.old }
        requires rates { AreRates rates.now }
        ensures runoff { result ≡ runoff rates.now self.old }
        ensures value { self.new ≡ dried rates.now self.old }
        ensures heat { self.old.heat ≡ self.new.heat +ℤ result.heat }
        ensures water { self.old.water ≡ self.new.water +ℤ result.water }
        ensures cell { IsLandCell self.new }
    {
        let runoff = self.runoff(rates);
        self.heat -= runoff.heat;
        self.water -= runoff.water;
        runoff
    }

    // What runs off.
    fn runoff(&self, rates: &Rates) -> Gain
        requires cell { IsLandCell self.now }
        requires rates { AreRates rates.now }
        ensures value { result ≡ runoff rates.now self.now }
        ensures heat { (pos 0 ≤ℤ result.heat) × (result.heat ≤ℤ self.now.heat) }
        ensures water { (pos 0 ≤ℤ result.water) × (result.water ≤ℤ self.now.water) }
    {
        let room = u128::from(rates.cap as u64) * u128::from(self.area as u64);
        let water = u128::from(self.water as u64).saturating_sub(room);
        let cold = u128::from(WATER_HEAT as u64) * water;
        let half = self.heat as u64 / 2;
        Gain {
            heat: cold.min(u128::from(half)) as i64,
            water: water as i64,
        }
    }
}
