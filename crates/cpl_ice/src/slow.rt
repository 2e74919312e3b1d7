// The slow step of the ice.
ghost use Rattle.std.specs.Prelude.{◌≡◌, ◌+◌, ◌-◌, ◌<◌, ◌≤◌, ◌*◌, pos, ◌≤ℤ◌, ◌+ℤ◌, ◌-ℤ◌, ◌*ℤ◌, nat_lt};
ghost use Rattle.cpl_fixed.specs.Ranges.{AreRates};
ghost use Rattle.cpl_fixed.specs.Totals.{total_of};
ghost use Rattle.cpl_ice.specs.Cells.{IsAmount, IsIceCell, IsSalty, nothing};
ghost use Rattle.cpl_ice.specs.Slow.{AreBounded, CanSlow, at, amount, closed_part, frozen, heat_of, is_thick, joined, melted, melted_at, melting, ridged, ridged_at, returned, slowed, water_of};

use crate::cell::IceCell;
use crate::parts::{NOTHING, Salty};
use crate::shifts::{add, amount_at, remove, shift};
use cpl_fixed::{
    Gain, ICE_HEAT, MELT_HEAT, MOST_AREA, MOST_TOTAL, PARTS, Rates, WATER_HEAT, at_most_share,
};

// What melts of ice with this heat.
fn melting(ice: i64, heat: i64) -> i64
    requires ice { IsAmount ice }
    requires heat { IsAmount heat }
    ensures value { result ≡ pos (melting (amount ice) (amount heat)) }
    ensures most { result ≤ℤ ice }
    ensures carried { (pos 0 ≤ℤ result) × ((WATER_HEAT *ℤ result) ≤ℤ heat) }
{
    let cold = u128::from(ICE_HEAT as u64) * u128::from(ice as u64);
    let warm = u128::from(heat as u64).saturating_sub(cold) as u64;
    (warm / MELT_HEAT as u64).min(ice as u64) as i64
}

// The frazil that closes a whole cell.
fn closing_water(h0: u64, area: u64) -> u64
    requires rate { (1 ≤ h0) × (h0 ≤ 1_048_576) }
    requires area { (1 ≤ area) × (area ≤ MOST_AREA) }
    ensures value { result ≡ h0 * area }
    ensures some { 0 < result }
{
    h0 * area
}

// Whether ice is thicker than the bound on the part of the area.
fn is_thicker(bound: u64, part: u64, area: u64, ice: u64) -> bool
    requires bound { bound ≤ 1_048_576 }
    requires part { part ≤ 65_536 }
    ensures { result ≡ nat_lt (bound * part * area) (ice * amount PARTS) }
{
    let least = u128::from(bound * part) * u128::from(area);
    least < u128::from(ice) * u128::from(PARTS as u64)
}

impl IceCell {
    /// The cell after its slow step, and what goes back to the ocean with the runoff that arrived. The frazil joins category 1;
    /// categories that are thicker than their bounds join the next, in rising order; warm ice melts, and a category without ice
    /// gives its heat and its part back; the skin leaves whole. The step is defined by this project.
    pub fn slow(&mut self, rates: &Rates, runoff: Gain) -> Salty
        requires cell { IsIceCell self.old }
        requires rates { AreRates rates.now }
        requires runoff { CanSlow self.old runoff }
        ensures value { self.new ≡ slowed rates.now self.old }
        ensures returned { result ≡ returned rates.now self.old runoff }
        ensures water { water_of self.old +ℤ runoff.water ≡ water_of self.new +ℤ result.water }
        ensures heat { heat_of self.old +ℤ runoff.heat ≡ heat_of self.new +ℤ result.heat }
        ensures salt { self.old.skin.salt ≡ self.new.skin.salt +ℤ result.salt }
        ensures amounts { IsSalty result }
        ensures cell { IsIceCell self.new }
    {
        self.freeze(rates);
        self.ridge(rates);
        let melt = self.melt();
        let skin = self.skin;
        self.skin = NOTHING;
        Salty {
            water: skin.water + melt.water + runoff.water,
            heat: skin.heat + melt.heat + runoff.heat,
            salt: skin.salt,
        }
    }

    // The part of open water that the frazil closes.
    fn closed_part(&self, rates: &Rates) -> i64
        requires cell { IsIceCell self.now }
        requires rates { AreRates rates.now }
        ensures value { result ≡ closed_part rates.now self.now }
        ensures bounds { (pos 0 ≤ℤ result) × (result ≤ℤ at self.now.parts 0) }
    {
        let open = amount_at(&self.parts, 0);
        let whole = closing_water(rates.h0 as u64, self.area as u64);
        at_most_share(open as u64, self.frazil_water as u64, PARTS as u64, whole) as i64
    }

    // The frazil joins category 1.
    fn freeze(&mut self, rates: &Rates)
        requires cell { IsIceCell self.old }
        requires rates { AreRates rates.now }
        requires water { (total_of self.old.ice +ℤ self.old.frazil_water) ≤ℤ pos MOST_TOTAL }
        requires heat { (total_of self.old.heat +ℤ self.old.frazil_heat) ≤ℤ pos MOST_TOTAL }
        ensures value { self.new ≡ frozen rates.now self.old }
        ensures cell { IsIceCell self.new }
        ensures water { total_of self.new.ice ≡ total_of self.old.ice +ℤ self.old.frazil_water }
        ensures heat { total_of self.new.heat ≡ total_of self.old.heat +ℤ self.old.frazil_heat }
    {
        let closed = self.closed_part(rates);
        shift(&mut self.parts, 0, 1, closed);
        add(&mut self.ice, 0, self.frazil_water);
        add(&mut self.heat, 0, self.frazil_heat);
        self.frazil_water = 0;
        self.frazil_heat = 0;
    }

    // Whether a category is thicker than its bound.
    fn is_thick(&self, rates: &Rates, n: usize) -> bool
        requires cell { IsIceCell self.now }
        requires rates { AreRates rates.now }
        requires place { n < 4 }
        ensures { result ≡ is_thick rates.now self.now n }
    {
        let part = amount_at(&self.parts, n + 1) as u64;
        let ice = amount_at(&self.ice, n) as u64;
        let bound = amount_at(&rates.bounds, n) as u64;
        part > 0 && is_thicker(bound, part, self.area as u64, ice)
    }

    // A category that is thicker than its bound joins the next.
    fn ridge_at(&mut self, rates: &Rates, n: usize)
        requires cell { IsIceCell self.old }
        requires bounded { AreBounded self.old }
        requires rates { AreRates rates.now }
        requires place { n < 4 }
        ensures value { self.new ≡ ridged_at rates.now self.old n }
        ensures cell { IsIceCell self.new }
        ensures water { total_of self.new.ice ≡ total_of self.old.ice }
        ensures heat { total_of self.new.heat ≡ total_of self.old.heat }
    {
        if self.is_thick(rates, n) {
            let part = amount_at(&self.parts, n + 1);
            let ice = amount_at(&self.ice, n);
            let heat = amount_at(&self.heat, n);
            shift(&mut self.parts, n + 1, n + 2, part);
            shift(&mut self.ice, n, n + 1, ice);
            shift(&mut self.heat, n, n + 1, heat);
        }
    }

    // Categories ridge in rising order.
    fn ridge(&mut self, rates: &Rates)
        requires cell { IsIceCell self.old }
        requires bounded { AreBounded self.old }
        requires rates { AreRates rates.now }
        ensures value { self.new ≡ ridged rates.now self.old (self.old.categories - 1) }
        ensures cell { IsIceCell self.new }
        ensures water { total_of self.new.ice ≡ total_of self.old.ice }
        ensures heat { total_of self.new.heat ≡ total_of self.old.heat }
    {
        let last = self.categories as usize - 1;
        for n in 0..last {
            self.ridge_at(rates, n);
        }
    }

    // A category melts: what leaves it.
    fn melt_at(&mut self, n: usize) -> Gain
        requires cell { IsIceCell self.old }
        requires bounded { AreBounded self.old }
        requires place { n < 5 }
        ensures value { self.new ≡ melted_at self.old n }
        ensures cell { IsIceCell self.new }
        ensures water { total_of self.old.ice ≡ total_of self.new.ice +ℤ result.water }
        ensures heat { total_of self.old.heat ≡ total_of self.new.heat +ℤ result.heat }
        ensures least { (pos 0 ≤ℤ result.water) × (pos 0 ≤ℤ result.heat) }
    {
        let part = amount_at(&self.parts, n + 1);
        let ice = amount_at(&self.ice, n);
        let heat = amount_at(&self.heat, n);
        let melt = melting(ice, heat);
        if melt == ice {
            shift(&mut self.parts, n + 1, 0, part);
            remove(&mut self.ice, n, ice);
            remove(&mut self.heat, n, heat);
            return Gain { heat, water: ice };
        }
        let carried = WATER_HEAT * melt;
        remove(&mut self.ice, n, melt);
        remove(&mut self.heat, n, carried);
        Gain {
            heat: carried,
            water: melt,
        }
    }

    // All categories melt: what leaves them.
    fn melt(&mut self) -> Gain
        requires cell { IsIceCell self.old }
        requires bounded { AreBounded self.old }
        ensures value { self.new ≡ melted self.old self.old.categories }
        ensures cell { IsIceCell self.new }
        ensures water { total_of self.old.ice ≡ total_of self.new.ice +ℤ result.water }
        ensures heat { total_of self.old.heat ≡ total_of self.new.heat +ℤ result.heat }
        ensures least { (pos 0 ≤ℤ result.water) × (pos 0 ≤ℤ result.heat) }
    {
        let mut gone = Gain { heat: 0, water: 0 };
        for n in 0..self.categories as usize {
            let melt = self.melt_at(n);
            gone.heat += melt.heat;
            gone.water += melt.water;
        }
        gone
    }
}
