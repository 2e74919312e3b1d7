// The budget: the greatest total of a quantity.
ghost use Rattle.std.specs.Prelude.{◌≡◌, All, OnOk, pos, ◌≤ℤ◌};
ghost use Rattle.cpl_fixed.specs.Totals.{total_of};
ghost use Rattle.cpl_state.specs.Stored.{IsStored};
ghost use Rattle.cpl_top.specs.Causes.{Answers};
ghost use Rattle.cpl_top.specs.Judging.{budget};

use crate::Status;
use cpl_fixed::{MOST_TOTAL, Quantity};

// The total of amounts.
fn total(amounts: &[i64]) -> i128
    requires { All IsStored amounts.now }
    ensures { result ≡ total_of amounts.now }
{
    let mut total = 0u128;
    for amount in amounts {
        total += u128::from(*amount as u64);
    }
    total as i128
}

/// Whether the total of amounts is within the budget.
pub(crate) fn judge_budget(quantity: Quantity, amounts: &[i64]) -> Result<(), Status>
    requires { All IsStored amounts.now }
    ensures answer { Answers (λ done. done) result (budget quantity (total_of amounts.now)) }
    ensures within { OnOk result (total_of amounts.now ≤ℤ pos MOST_TOTAL) }
{
    let total = total(amounts);
    if total <= i128::from(MOST_TOTAL) {
        Ok(())
    } else {
        Err(Status::Budget(quantity, total))
    }
}
