// Quotients of products.
ghost use Rattle.std.specs.Prelude.{◌≡◌, ◌*◌, ◌/◌, ◌<◌, ◌≤◌, ◌^◌, min};

/// The quotient, rounded down, in 64 bits where both numbers fit: a division in 128 bits is several times slower.
#[inline]
pub fn quotient(n: u128, d: u128) -> u128
    requires { 0 < d }
    ensures { result ≡ n / d }
{
    if n <= u128::from(u64::MAX) && d <= u128::from(u64::MAX) {
        u128::from(n as u64 / d as u64)
    } else {
        wide_quotient(n, d)
    }
}

// The same in 128 bits.
#[cold]
fn wide_quotient(n: u128, d: u128) -> u128
    requires { 0 < d }
    ensures { result ≡ n / d }
{
    n / d
}

/// What is wanted, and at most the share that `b` of the whole has in the amount, rounded down. It divides only where that is less
/// than what is wanted, and in 128 bits only where the product passes 64.
#[inline]
pub fn at_most_share(wanted: u64, amount: u64, b: u64, whole: u64) -> u64
    requires { 0 < whole }
    ensures value { result ≡ min wanted (amount * b / whole) }
    ensures most { result ≤ wanted }
    ensures share { whole * result ≤ amount * b }
{
    let left = u128::from(amount) * u128::from(b);
    if u128::from(wanted) * u128::from(whole) <= left {
        wanted
    } else {
        quotient(left, u128::from(whole)) as u64
    }
}
