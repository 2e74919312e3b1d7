// Amounts that a test makes.
ghost use Rattle.std.specs.Prelude.{length};
ghost use Rattle.std.specs.Bool.{OnTrue};
ghost use Rattle.cpl_state.specs.Diffusion.{AreAmounts};

/// The greatest total, 2^62 - 1.
const MOST: i64 = 4611686018427387903;

/// Whether no amount is negative, and their total is within the budget.
pub fn are_amounts(amounts: &[i64]) -> bool
    ensures { OnTrue result (AreAmounts (length amounts.now) amounts.now) }
{
    let mut total = 0;
    for x in amounts {
        if *x < 0 || *x > MOST - total {
            return false;
        }
        total += *x;
    }
    true
}
