// Numbers that move within a list.
ghost use Rattle.std.specs.Prelude.{◌≡◌, ◌≢◌, ◌<◌, ◌≤ℤ◌, ◌+ℤ◌, ◌-ℤ◌, neg_ℤ, length, pos, All};
ghost use Rattle.cpl_fixed.specs.Totals.{total_of};
ghost use Rattle.cpl_ice.specs.Cells.{IsAmount};
ghost use Rattle.cpl_ice.specs.Slow.{added, at, moved};

use cpl_fixed::MOST_TOTAL;

// The amount at a place.
pub(crate) fn amount_at(xs: &[i64], n: usize) -> i64
    requires place { n < length xs.now }
    requires amounts { All IsAmount xs.now }
    ensures value { result ≡ at xs.now n }
    ensures least { pos 0 ≤ℤ result }
    ensures most { result ≤ℤ total_of xs.now }
    ensures amount { IsAmount result }
{
    xs[n]
}

// Adds x, which may be negative, at a place.
pub(crate) fn add(xs: &mut [i64], n: usize, x: i64)
    requires place { n < length xs.old }
    requires amounts { All IsAmount xs.old }
    requires least { pos 0 ≤ℤ (at xs.old n +ℤ x) }
    requires most { (total_of xs.old +ℤ x) ≤ℤ pos MOST_TOTAL }
    ensures value { xs.new ≡ added xs.old n x }
    ensures amounts { All IsAmount xs.new }
    ensures total { total_of xs.new ≡ total_of xs.old +ℤ x }
    ensures len { length xs.new ≡ length xs.old }
{
    xs[n] += x;
}

// Takes x from a place that has as much.
pub(crate) fn remove(xs: &mut [i64], n: usize, x: i64)
    requires place { n < length xs.old }
    requires amounts { All IsAmount xs.old }
    requires least { pos 0 ≤ℤ x }
    requires enough { x ≤ℤ at xs.old n }
    requires total { total_of xs.old ≤ℤ pos MOST_TOTAL }
    ensures value { xs.new ≡ added xs.old n (neg_ℤ x) }
    ensures amounts { All IsAmount xs.new }
    ensures total { total_of xs.old ≡ total_of xs.new +ℤ x }
    ensures len { length xs.new ≡ length xs.old }
{
    add(xs, n, -x);
}

// Moves x from a place that has as much to another.
pub(crate) fn shift(xs: &mut [i64], from: usize, to: usize, x: i64)
    requires from { from < length xs.old }
    requires to { to < length xs.old }
    requires amounts { All IsAmount xs.old }
    requires least { pos 0 ≤ℤ x }
    requires enough { x ≤ℤ at xs.old from }
    requires total { total_of xs.old ≤ℤ pos MOST_TOTAL }
    ensures value { xs.new ≡ moved xs.old from to x }
    ensures amounts { All IsAmount xs.new }
    ensures total { total_of xs.new ≡ total_of xs.old }
    ensures len { length xs.new ≡ length xs.old }
{
    remove(xs, from, x);
    add(xs, to, x);
}
