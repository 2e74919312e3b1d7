// What flows between two cells of the air.
ghost use Rattle.std.specs.Prelude.{◌≡◌, ◌*◌, ◌<◌, ◌≤◌, ◌^◌, pos, ◌≤ℤ◌, ◌<ℤ◌, ◌-ℤ◌, ◌*ℤ◌, unsigned_abs};
ghost use Rattle.cpl_fixed.specs.Division.{trunc};
ghost use Rattle.cpl_fixed.specs.Flows.{IsAirAmount, IsAirArea, face_divisor, flow, gives};
ghost use Rattle.cpl_fixed.specs.Reciprocals.{reciprocal_of};

use crate::divisor::Divisor;
use crate::limits::{MOST_AREA, MOST_TOTAL};

// What a cell with the amount x and the area a gives to one with y and b: nothing where it takes.
fn given(x: u64, a: u64, y: u64, b: u64) -> u64
    requires amount { x ≤ MOST_TOTAL }
    requires other_amount { y ≤ MOST_TOTAL }
    requires area { (0 < a) × (a ≤ MOST_AREA) }
    requires other_area { (0 < b) × (b ≤ MOST_AREA) }
    ensures value { result ≡ gives x a y b }
    ensures most { 8 * result ≤ x }
{
    let more = u128::from(x) * u128::from(b);
    let less = u128::from(y) * u128::from(a);
    (more.saturating_sub(less) / u128::from(8 * (a + b))) as u64
}

// The flow where its products pass 64 bits.
#[cold]
fn wide_flow(x: u64, a: u64, y: u64, b: u64) -> i64
    requires amount { x ≤ MOST_TOTAL }
    requires other_amount { y ≤ MOST_TOTAL }
    requires area { (0 < a) × (a ≤ MOST_AREA) }
    requires other_area { (0 < b) × (b ≤ MOST_AREA) }
    ensures { result ≡ flow (pos x) (pos a) (pos y) (pos b) }
{
    if u128::from(y) * u128::from(a) <= u128::from(x) * u128::from(b) {
        given(x, a, y, b) as i64
    } else {
        -(given(y, b, x, a) as i64)
    }
}

// The flow between cells of equal areas, which cancel out.
#[inline]
fn even_flow(x: i64, y: i64) -> i64
    requires amount { IsAirAmount x }
    requires other_amount { IsAirAmount y }
    ensures { result ≡ trunc (x -ℤ y) (pos 16) }
{
    (x - y) / 16
}

/// What divides the flows between two cells: eight times the sum of their areas. It is made once, and holds the reciprocal alone,
/// since the areas stand beside it.
#[derive(Clone, Copy, Debug)]
pub struct FaceDivisor {
    reciprocal: u64,
}

impl FaceDivisor {
    /// The divisor of the flows between two cells with the areas `a` and `b`.
    pub fn new(a: i64, b: i64) -> FaceDivisor
        requires area { IsAirArea a }
        requires other_area { IsAirArea b }
        ensures { result ≡ face_divisor a b }
    {
        FaceDivisor {
            reciprocal: Divisor::new((8 * (a + b)) as u64).reciprocal(),
        }
    }

    // The flow where its products fit 64 bits.
    #[inline]
    fn narrow_flow(self, more: i64, less: i64, parts: i64) -> i64
        requires more { pos 0 ≤ℤ more }
        requires less { pos 0 ≤ℤ less }
        requires parts { pos 0 <ℤ parts }
        requires reciprocal { reciprocal_of (unsigned_abs parts) ≡ self.reciprocal }
        ensures { result ≡ trunc (more -ℤ less) parts }
    {
        Divisor::again(parts as u64, self.reciprocal).divide_signed(more - less)
    }
}

/// What flows out of a cell with the amount `x` and the area `a` into one with the amount `y` and the area `b`, by the divisor of
/// these areas. It is below 0 where the amount for each unit of area is smaller in the first.
///
/// The products of amounts and areas are taken in 64 bits where they fit, and else in 128.
#[inline]
pub fn flow_with(divisor: FaceDivisor, x: i64, a: i64, y: i64, b: i64) -> i64
    requires divisor { divisor ≡ face_divisor a b }
    requires amount { IsAirAmount x }
    requires other_amount { IsAirAmount y }
    requires area { IsAirArea a }
    requires other_area { IsAirArea b }
    ensures { result ≡ flow x a y b }
{
    if a == b {
        return even_flow(x, y);
    }
    let parts = 8 * (a + b);
    match (x.checked_mul(b), y.checked_mul(a)) {
        (Some(more), Some(less)) => divisor.narrow_flow(more, less, parts),
        _ => wide_flow(x as u64, a as u64, y as u64, b as u64),
    }
}

/// The same for a flow that is taken once.
pub fn flow_between(x: i64, a: i64, y: i64, b: i64) -> i64
    requires amount { IsAirAmount x }
    requires other_amount { IsAirAmount y }
    requires area { IsAirArea a }
    requires other_area { IsAirArea b }
    ensures { result ≡ flow x a y b }
{
    flow_with(FaceDivisor::new(a, b), x, a, y, b)
}
