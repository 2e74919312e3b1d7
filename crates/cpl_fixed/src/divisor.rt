// A divisor that stays.
ghost use Rattle.std.specs.Prelude.{ℕ, ◌≡◌, ◌/◌, ◌<◌, ◌^◌, pos, ◌<ℤ◌, ◌-ℤ◌};
ghost use Rattle.std.specs.Coded.{coded_ℕ};
ghost use Rattle.cpl_fixed.specs.Division.{trunc};
ghost use Rattle.cpl_fixed.specs.Reciprocals.{reciprocal_of, sign_of};

use std::marker::Model;

// The sign of n as a factor, with no branch, which is slow where signs vary.
#[inline]
fn sign(n: i64) -> i64
    ensures { result ≡ sign_of n }
{
    1 - 2 * i64::from(n < 0)
}

/// A divisor that stays while many numbers are divided by it, and its reciprocal, which is made once: a division is then two
/// multiplications and one correction, several times faster than the machine's own.
///
/// The method is Granlund and Montgomery's, division by invariant integers using multiplication. With the reciprocal `r` of `d`,
/// the largest number for which `r * d` is below 2^64, the upper half of `r * n` is never above the quotient of `n` by `d`. It
/// falls short of it by at most one, since `r * d` is at least `2^64 - d`, so that `n / d - r * n / 2^64` is at most
/// `n / 2^64`, which is below one. So one correction is enough for each `n` of 64 bits and each `d` from 1. The other form, which
/// rounds a longer reciprocal up and needs no correction, was measured to be no faster.
///
/// In contracts it is its divisor.
#[derive(Clone, Copy, Debug, Drop)]
pub struct Divisor {
    divisor: u64,
    reciprocal: u64,
}

impl Model for Divisor {
    ghost Value = { ℕ };

    ghost coded = { coded_ℕ };

    ghost view = { λ it. it.divisor };

    ghost invariant = { λ it. (0 < it.divisor) × (reciprocal_of it.divisor ≡ it.reciprocal) };

    ghost inverse = { λ d. record { divisor = d; reciprocal = reciprocal_of d } };

    ghost inverse_ok = { λ it h i. record { divisor = it.divisor; reciprocal = h.1 i } };
}

impl Divisor {
    /// The divisor `d`, which is not 0.
    pub fn new(d: u64) -> Divisor
        requires { 0 < d }
        ensures { result ≡ d }
    {
        Divisor {
            divisor: d,
            reciprocal: u64::MAX / d,
        }
    }

    // The divisor d once more, by its reciprocal.
    #[inline]
    pub(crate) fn again(d: u64, reciprocal: u64) -> Divisor
        requires some { 0 < d }
        requires reciprocal { reciprocal_of d ≡ reciprocal }
        ensures { result ≡ d }
    {
        Divisor {
            divisor: d,
            reciprocal,
        }
    }

    // How often the divisor goes into 2^64 - 1.
    pub(crate) fn reciprocal(&self) -> u64
        ensures { result ≡ reciprocal_of self.now }
    {
        self.reciprocal
    }

    /// The quotient of `n`, rounded down.
    #[inline]
    pub fn divide(&self, n: u64) -> u64
        ensures { result ≡ n / self.now }
    {
        let quotient = ((u128::from(self.reciprocal) * u128::from(n)) >> 64) as u64;
        if n - quotient * self.divisor < self.divisor {
            quotient
        } else {
            quotient + 1
        }
    }

    /// The quotient of `n`, rounded toward zero: that of `-n` is its negative. The magnitude of `n` is below 2^63.
    #[inline]
    pub fn divide_signed(&self, n: i64) -> i64
        requires { (pos 0 -ℤ pos (2 ^ 63)) <ℤ n }
        ensures { result ≡ trunc n (pos self.now) }
    {
        sign(n) * self.divide(n.unsigned_abs()) as i64
    }
}
