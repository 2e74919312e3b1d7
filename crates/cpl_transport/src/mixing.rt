// Vertical exchange.
ghost use Rattle.std.specs.Prelude.{◌≡◌, ◌≤◌, ◌<◌, ℕ, ℤ, pos, ◌≤ℤ◌};
ghost use Rattle.cpl_fixed.specs.Amounts.{IsAmount};
ghost use Rattle.cpl_transport.specs.Mixing.{exchanged, mixed, sum_of};
ghost use Rattle.cpl_transport.specs.Salts.{IsSmall};

/// What passes in a step from a layer to the one below it, less what comes up: each gives a 2^-mix of what it has, rounded down.
/// Defined by this project.
#[inline]
pub fn exchanged(mix: u32, upper: i64, lower: i64) -> i64
    requires mix { (2 ≤ mix) × (mix ≤ 40) }
    requires upper { IsAmount upper }
    requires lower { IsAmount lower }
    ensures value { result ≡ exchanged mix upper lower }
    ensures small { IsSmall result }
{
    (upper as u64 >> mix) as i64 - (lower as u64 >> mix) as i64
}

/// Vertical exchange keeps the sum of a column, and leaves no layer below 0.
pub fn mixing_law()
    ensures total { (mix layers : ℕ) (column : ℕ → ℤ) → sum_of layers (mixed mix layers column) ≡ sum_of layers column }
    ensures least { (mix layers n : ℕ) (column : ℕ → ℤ) → 2 ≤ mix → ((k : ℕ) → k < layers → pos 0 ≤ℤ column k) → n < layers
        → pos 0 ≤ℤ mixed mix layers column n }
{}
