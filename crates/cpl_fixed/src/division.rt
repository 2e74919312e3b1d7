// Division and bounds of whole numbers.
ghost use Rattle.std.specs.Prelude.{◌≡◌, ℤ, pos, ◌<ℤ◌, ◌≤ℤ◌, ◌-ℤ◌};
ghost use Rattle.cpl_fixed.specs.Division.{trunc, clamp};

/// The quotient of `x` by `d`, rounded toward zero, so that the quotient of `-x` is its negative.
///
/// The rounding of all flows that go both ways is defined by this project.
pub fn trunc_div(x: i128, d: i128) -> i128
    requires { pos 0 <ℤ d }
    ensures { result ≡ trunc x d }
{
    x / d
}

/// What flows one way is the negative of what flows the other way: the quotient of `-x` is the negative of that of `x`.
pub fn trunc_law()
    ensures { (x d : ℤ) → pos 0 <ℤ d → trunc (pos 0 -ℤ x) d ≡ pos 0 -ℤ trunc x d }
{}

/// `x` where it is from `lo` to `hi`, else the end that is nearer.
pub fn clamp(x: i128, lo: i64, hi: i64) -> i64
    requires { lo ≤ℤ hi }
    ensures value { result ≡ clamp x lo hi }
    ensures least { lo ≤ℤ result }
    ensures most { result ≤ℤ hi }
{
    if x < i128::from(lo) {
        lo
    } else if x > i128::from(hi) {
        hi
    } else {
        x as i64
    }
}

/// Between a bound and its negative, what `-x` is clamped to is the negative of what `x` is clamped to.
pub fn clamp_law()
    ensures { (x most : ℤ) → pos 0 ≤ℤ most
        → clamp (pos 0 -ℤ x) (pos 0 -ℤ most) most ≡ pos 0 -ℤ clamp x (pos 0 -ℤ most) most }
{}
