// Amounts divided by shares, written in place.
ghost use Rattle.std.specs.Prelude.{◌≡◌, ◌≤ℤ◌, length, pos};
ghost use Rattle.cpl_fixed.specs.Totals.{total_of};
ghost use Rattle.cpl_fixed.specs.Shares.{CanShare, shares_of};

use cpl_fixed::{MOST_TOTAL, shares};

// Writes the share of each weight.
pub(crate) fn share_out(amount: i64, weights: &[i64], to: &mut [i64])
    requires can { CanShare amount weights.now }
    requires most { total_of weights.now ≤ℤ pos MOST_TOTAL }
    requires room { length to.old ≡ length weights.now }
    ensures { to.new ≡ shares_of amount weights.now }
{
    let mut rest = shares(amount, weights);
    for k in 0..to.len() {
        if let Some(share) = rest.next() {
            to[k] = share;
        }
    }
}
