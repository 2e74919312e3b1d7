// Decimals, bounds and shares.
ghost use Rattle.std.specs.Prelude.{pos, ◌≤ℤ◌};
ghost use Rattle.cpl_fixed.specs.Totals.{total_of};
ghost use Rattle.cpl_fixed.specs.Shares.{CanShare};

use cpl_fixed::{MOST_TOTAL, clamp, decimal, is_numeral, share, shares};
use std::process::Abort;

// Looks whether the shares of an amount over weights are these, one by one and by running sums.
fn are_shares(rt: &impl Abort, amount: i64, weights: &[i64], expected: &[i64])
    requires can { CanShare amount weights.now }
    requires most { total_of weights.now ≤ℤ pos MOST_TOTAL }
{
    let mut n = 0;
    for share in shares(amount, weights) {
        assert!(rt; n < expected.len());
        assert_eq!(rt; share, expected[n]);
        n += 1;
    }
    assert_eq!(rt; n, expected.len());
}

#[test]
fn shares_sum_to_the_amount(rt: HostRuntime) {
    are_shares(&rt, 10, &[1, 1, 1], &[3, 3, 4]);
    are_shares(&rt, 0, &[5, 7], &[0, 0]);
    are_shares(&rt, 9, &[4], &[9]);
    let halves = [2305843009213693951, 2305843009213693952];
    are_shares(&rt, 4611686018427387903, &[1, 1], &halves);
    assert_eq!(rt; share(10, 2, 3, 3), 4);
}

#[test]
fn bounds_hold_both_ways(rt: HostRuntime) {
    for (x, bounded) in [(-9, -8), (-8, -8), (7, 7), (8, 8), (9, 8)] {
        assert_eq!(rt; clamp(x, -8, 8), bounded);
    }
}

/// Digits, and the number that they stand for, where it is below 2^64.
const DECIMALS: [(&'static [u8], Option<u64>); 6] = [
    (b"", Some(0)),
    (b"0", Some(0)),
    (b"0042", Some(42)),
    (b"18446744073709551615", Some(18446744073709551615)),
    (b"18446744073709551616", None),
    (b"000000000000000000000000000000000000000000000007", Some(7)),
];

#[test]
fn digits_stand_for_a_number(rt: HostRuntime) {
    for (digits, number) in DECIMALS {
        assert_eq!(rt; decimal(digits, 18446744073709551615), number);
    }
    assert_eq!(rt; decimal(b"10000", 10000), Some(10000));
    assert_eq!(rt; decimal(b"10001", 10000), None);
}

#[test]
fn numerals_have_no_leading_zero(rt: HostRuntime) {
    for (text, is) in [
        ("0", true),
        ("1234", true),
        ("", false),
        ("01", false),
        ("12345", false),
        ("1x", false),
    ] {
        assert_eq!(rt; is_numeral(text.as_bytes(), 4), is);
    }
}
