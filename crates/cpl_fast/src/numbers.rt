// Parts of amounts.
ghost use Rattle.std.specs.Prelude.{◌≡◌, pos, ◌≤ℤ◌, ◌<ℤ◌};
ghost use Rattle.cpl_fixed.specs.Shares.{part_of};
ghost use Rattle.cpl_fixed.specs.declared.limits.TheConstants.{MOST_TOTAL};

use cpl_fixed::quotient;

// The part of an amount that a weight has in a whole, rounded down, where it is in range.
#[inline]
pub(crate) fn part_of(amount: i64, weight: i64, whole: i64) -> i64
    requires amount { pos 0 ≤ℤ amount }
    requires weight { pos 0 ≤ℤ weight }
    requires some { pos 0 <ℤ whole }
    requires most { part_of amount weight whole ≤ℤ pos MOST_TOTAL }
    ensures value { result ≡ part_of amount weight whole }
{
    let product = u128::from(amount as u64) * u128::from(weight as u64);
    quotient(product, u128::from(whole as u64)) as i64
}
