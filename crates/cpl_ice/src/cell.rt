// A cell of the ice within a coupling step.
ghost use Rattle.std.specs.Prelude.{◌≡◌, ◌≤◌, ◌<◌, pos};
ghost use Rattle.cpl_ice.specs.Cells.{IsIceCell, IsFlight, CanGain, HasNoFlight, taken, gained};

use crate::parts::{Salty, ToIce};
use cpl_fixed::Gain;

/// A cell of the ocean's grid that has water, as the ice sees it. Part 0 is open water, part `k` is category `k`, whose ice and
/// heat stand at `k - 1`. Skin and frazil are of the coupling step alone.
#[derive(Clone, Copy, Debug, PartialEq, Eq)]
pub struct IceCell {
    /// The area, which isn't 0.
    pub area: i64,
    /// How many categories there are, 1 to 5.
    pub categories: u32,
    /// The parts of the area, whose sum is 65536.
    pub parts: [i64; 6],
    /// The ice of each category.
    pub ice: [i64; 5],
    /// The heat of each category.
    pub heat: [i64; 5],
    /// Water that froze in the ocean.
    pub frazil_water: i64,
    /// Its heat.
    pub frazil_heat: i64,
    /// The water that the air sees.
    pub skin: Salty,
}

impl IceCell {
    /// The cell with the flight from the ocean, where it has neither frazil nor skin.
    pub fn take(&mut self, flight: ToIce)
        requires cell { IsIceCell self.old }
        requires flight { IsFlight flight }
        requires empty { HasNoFlight self.old }
        ensures value { self.new ≡ taken self.old flight }
        ensures cell { IsIceCell self.new }
    {
        self.frazil_water = flight.frazil_water;
        self.frazil_heat = flight.frazil_heat;
        self.skin = flight.skin;
    }

    /// The cell after a fast step: the skin gains where `k` is 0, else the heat of category `k`, which gains no water. It loses at
    /// most what is there.
    pub fn fast(&mut self, k: u32, gain: Gain)
        requires cell { IsIceCell self.old }
        requires category { k ≤ self.old.categories }
        requires gain { CanGain self.old k gain }
        ensures value { self.new ≡ gained self.old k gain }
        ensures cell { IsIceCell self.new }
    {
        if k == 0 {
            self.skin.water += gain.water;
            self.skin.heat += gain.heat;
        } else {
            self.heat[k as usize - 1] += gain.heat;
        }
    }
}
