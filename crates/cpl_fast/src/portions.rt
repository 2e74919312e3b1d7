// Shares that are taken one after the other.
ghost use Rattle.std.specs.Prelude.{◌≡◌, pos, ◌≤ℤ◌, ◌<ℤ◌, ◌+ℤ◌};
ghost use Rattle.cpl_fixed.specs.Amounts.{IsAmount};
ghost use Rattle.cpl_fixed.specs.Shares.{share};
ghost use Rattle.cpl_fast.specs.Flows.{ArePortions};

use crate::numbers::part_of;

/// The shares of an amount that are still to come, where the weights before them sum to `from` and all weights to `whole`. Each
/// takes one division.
#[derive(Clone, Copy)]
pub struct Portions {
    pub(crate) amount: i64,
    pub(crate) whole: i64,
    pub(crate) from: i64,
    pub(crate) given: i64,
}

impl Portions {
    /// The shares behind the weights that sum to `from`.
    #[inline]
    pub fn new(amount: i64, from: i64, whole: i64) -> Portions
        requires amount { IsAmount amount }
        requires from { pos 0 ≤ℤ from }
        requires within { from ≤ℤ whole }
        requires some { pos 0 <ℤ whole }
        ensures portions { ArePortions result }
        ensures amount { result.amount ≡ amount }
        ensures from { result.from ≡ from }
        ensures whole { result.whole ≡ whole }
    {
        Portions {
            amount,
            whole,
            from,
            given: part_of(amount, from, whole),
        }
    }

    /// The share of the next weight.
    #[inline]
    pub fn next(&mut self, weight: i64) -> i64
        requires portions { ArePortions self.old }
        requires weight { pos 0 ≤ℤ weight }
        requires within { (self.old.from +ℤ weight) ≤ℤ self.old.whole }
        ensures value { result ≡ share self.old.amount self.old.from (self.old.from +ℤ weight) self.old.whole }
        ensures range { IsAmount result }
        ensures portions { ArePortions self.new }
        ensures amount { self.new.amount ≡ self.old.amount }
        ensures from { self.new.from ≡ self.old.from +ℤ weight }
        ensures whole { self.new.whole ≡ self.old.whole }
    {
        if weight == 0 {
            return 0;
        }
        let to = self.from + weight;
        let given = part_of(self.amount, to, self.whole);
        let share = given - self.given;
        self.from = to;
        self.given = given;
        share
    }
}
