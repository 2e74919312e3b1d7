// The shares of an amount over weights.
ghost use Rattle.std.specs.Prelude.{◌≡◌, ◌≤◌, ◌<◌, ◌^◌, ◌*◌, ◌/◌, ◌-◌, ℤ, List, pos, ◌≤ℤ◌, ◌<ℤ◌, All};
ghost use Rattle.std.specs.Iterator.{YieldsFirst, item_count};
ghost use Rattle.cpl_fixed.specs.Totals.{total_of};
ghost use Rattle.cpl_fixed.specs.Shares.{share, CanShare, SharesAgree, shares_of};

use crate::limits::MOST_TOTAL;
use std::marker::Model;

// The part of an amount that a weight has in a whole, rounded down. The product passes 64 bits only where it must.
fn part(amount: u64, weight: u64, whole: u64) -> u64
    requires some { 0 < whole }
    requires within { weight ≤ whole }
    ensures value { result ≡ amount * weight / whole }
    ensures most { result ≤ amount }
{
    match amount.checked_mul(weight) {
        Some(product) => product / whole,
        None => (u128::from(amount) * u128::from(weight) / u128::from(whole)) as u64,
    }
}

// What lies between two running sums of weights.
fn part_between(amount: u64, from: u64, to: u64, whole: u64) -> u64
    requires some { 0 < whole }
    requires order { from ≤ to }
    requires within { to ≤ whole }
    ensures value { result ≡ amount * to / whole - amount * from / whole }
    ensures most { result ≤ amount }
{
    part(amount, to, whole) - part(amount, from, whole)
}

/// The share of an amount that lies between two running sums of weights, `from` and `to`, whose whole sum is `whole`.
///
/// The share rule is defined by this project: what is given up to a running sum is the amount's part, rounded down.
pub fn share(amount: i64, from: i64, to: i64, whole: i64) -> i64
    requires amount { pos 0 ≤ℤ amount }
    requires from { pos 0 ≤ℤ from }
    requires order { from ≤ℤ to }
    requires within { to ≤ℤ whole }
    requires some { pos 0 <ℤ whole }
    ensures value { result ≡ share amount from to whole }
    ensures least { pos 0 ≤ℤ result }
    ensures most { result ≤ℤ amount }
{
    part_between(amount as u64, from as u64, to as u64, whole as u64) as i64
}

/// The shares of an amount over weights, in order. Contracts see the list of those to come.
#[derive(Drop)]
pub struct ShareIter<'a> {
    amount: u64,
    whole: u64,
    from: u64,
    given: u64,
    weights: &'a [i64],
}

impl<'a> Model for ShareIter<'a> {
    ghost use Rattle.std.specs.Prelude.{List, ℤ, pos};
    ghost use Rattle.cpl_fixed.specs.Shares.{IsPartWay, shares_from};

    ghost Value = { List ℤ };

    ghost view = { λ it. shares_from (pos it.amount) (pos it.whole) (pos it.from) it.weights.now };

    ghost invariant = { λ it. IsPartWay it.amount it.whole it.from it.given it.weights.now };
}

impl Iterator for ShareIter<'_> {
    type Item = i64;

    ghost next_gives = { YieldsFirst (λ shares. shares) };

    ghost remaining = { item_count (λ shares. shares) };

    fn next(&mut self) -> Option<i64> {
        let (weight, weights) = self.weights.split_first()?;
        let to = self.from + *weight as u64;
        let given = part(self.amount, to, self.whole);
        let share = (given - self.given) as i64;
        self.from = to;
        self.given = given;
        self.weights = weights;
        Some(share)
    }
}

// The sum of weights.
fn total(weights: &[i64]) -> i64
    requires each { All (λ weight. pos 0 ≤ℤ weight) weights.now }
    requires most { total_of weights.now ≤ℤ pos MOST_TOTAL }
    ensures { result ≡ total_of weights.now }
{
    let mut sum = 0;
    for weight in weights {
        sum += *weight;
    }
    sum
}

/// The shares of an amount over weights, in order: one for each weight, and their sum is the amount.
///
/// The amount is 0 or above, and so is each weight; the weights' sum is 1 to 2^62 - 1.
pub fn shares(amount: i64, weights: &[i64]) -> ShareIter<'_>
    requires can { CanShare amount weights.now }
    requires most { total_of weights.now ≤ℤ pos MOST_TOTAL }
    ensures { result ≡ shares_of amount weights.now }
{
    ShareIter {
        amount: amount as u64,
        whole: total(weights) as u64,
        from: 0,
        given: 0,
        weights,
    }
}

/// The shares of an amount over weights are one for each weight, sum to the amount, and none is negative or above it.
pub fn shares_law()
    ensures { (amount : ℤ) (weights : List ℤ) → CanShare amount weights → SharesAgree amount weights (shares_of amount weights) }
{}
