// Heights of columns, and the numbers of faces that they drive.
ghost use Rattle.std.specs.Prelude.{◌≡◌, ◌≤◌, ◌^◌, ℕ, ℤ, pos, neg_ℤ, ◌-ℤ◌};
ghost use Rattle.cpl_fixed.specs.Amounts.{IsAmount};
ghost use Rattle.cpl_fixed.specs.Division.{trunc};
ghost use Rattle.cpl_fixed.specs.Ranges.{IsFromℤ};
ghost use Rattle.cpl_transport.specs.Heights.{IsFaceNumber, IsHeight, height_of, next_face};

use cpl_fixed::{MOST_AREA, MOST_FACE, quotient};

/// The height of a column with this water over this area, in 256ths of a unit of water for each unit of area, 0 to 2^40. The
/// area isn't 0. Defined by this project.
#[inline]
pub fn height(water: i64, area: i64) -> i64
    requires water { IsAmount water }
    requires area { IsFromℤ 1 MOST_AREA area }
    ensures value { result ≡ height_of water area }
    ensures range { IsHeight result }
{
    let each = quotient(256 * u128::from(water as u64), u128::from(area as u64));
    each.min(u128::from(MOST_FACE as u64)) as i64
}

// What a difference of heights drives, rounded toward zero.
#[inline]
fn drive(slope: u32, height: i64, other: i64) -> i64
    requires slope { slope ≤ 40 }
    requires height { IsHeight height }
    requires other { IsHeight other }
    ensures value { result ≡ trunc (height -ℤ other) (pos (2 ^ slope)) }
    ensures range { IsFaceNumber result }
{
    let steep = (height.abs_diff(other) >> slope) as i64;
    if height < other { -steep } else { steep }
}

/// A face's number after a step, from its number and the heights of the columns beside it, outward from the first: it loses a
/// sixteenth and gains the difference of the heights over 2^slope, and stays between -2^40 and 2^40. Seen from the other side
/// it is the negative. Defined by this project.
#[inline]
pub fn next_face(slope: u32, u: i64, height: i64, other: i64) -> i64
    requires slope { slope ≤ 40 }
    requires number { IsFaceNumber u }
    requires height { IsHeight height }
    requires other { IsHeight other }
    ensures value { result ≡ next_face slope u height other }
    ensures range { IsFaceNumber result }
{
    let next = u - u / 16 + drive(slope, height, other);
    next.max(-MOST_FACE).min(MOST_FACE)
}

/// What a face's next number is from one side, its negative is from the other, where the heights change places.
pub fn face_law()
    ensures { (slope : ℕ) (u height other : ℤ) → next_face slope (neg_ℤ u) other height ≡ neg_ℤ (next_face slope u height other) }
{}
