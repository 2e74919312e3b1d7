// What moves through a face.
ghost use Rattle.std.specs.Prelude.{◌≡◌, ◌*◌, ◌/◌, ◌≤◌, ◌<◌, ℕ, ℤ, pos, neg_ℤ, ◌-ℤ◌, ◌≤ℤ◌, ◌*ℤ◌};
ghost use Rattle.cpl_fixed.specs.Amounts.{IsAmount, amount};
ghost use Rattle.cpl_ice.specs.declared.parts.Salty.{Salty};
ghost use Rattle.cpl_transport.specs.Heights.{IsFaceNumber};
ghost use Rattle.cpl_transport.specs.Moves.{carried, correction, given, minmod, moved, through};
ghost use Rattle.cpl_transport.specs.Salts.{AreEighths, AreOutflows, AreSmall, IsEighth, IsSalty, IsSmall, turned};

use cpl_fixed::{MOST_TOTAL, quotient};
use cpl_ice::Salty;

// The lesser of two differences of one sign, else 0.
#[inline]
fn minmod(a: i64, b: i64) -> i64
    ensures { result ≡ minmod a b }
{
    if a > 0 && b > 0 {
        a.min(b)
    } else if a < 0 && b < 0 {
        a.max(b)
    } else {
        0
    }
}

// The correction by the slope behind a cell and ahead of it.
#[inline]
fn correction(behind: i64, here: i64, ahead: i64) -> i64
    requires behind { IsAmount behind }
    requires here { IsAmount here }
    requires ahead { IsAmount ahead }
    ensures value { result ≡ correction behind here ahead }
    ensures small { IsSmall result }
{
    minmod(here - behind, ahead - here) / 16
}

// The water that moves out of a cell.
#[inline]
fn moved(u: i64, water: i64) -> i64
    requires number { IsFaceNumber u }
    requires water { IsAmount water }
    ensures value { result ≡ pos (moved u water) }
    ensures eighth { IsEighth water result }
    ensures face { IsFaceNumber result }
{
    u.unsigned_abs().min(water as u64 / 8) as i64
}

// The share of an amount that goes with m of the water, in proportion.
#[inline]
fn portion(here: u64, m: u64, water: u64) -> u64
    requires some { 0 < water }
    requires moved { 8 * m ≤ water }
    requires here { here ≤ MOST_TOTAL }
    ensures value { result ≡ here * m / water }
    ensures eighth { 8 * result ≤ here }
{
    quotient(u128::from(here) * u128::from(m), u128::from(water)) as u64
}

// The heat or salt that goes with some of the water, with a correction: from 0 to an eighth.
#[inline]
fn corrected(water: i64, m: i64, here: i64, j: i64) -> i64
    requires water { IsAmount water }
    requires moved { IsEighth water m }
    requires some { pos 1 ≤ℤ m }
    requires here { IsAmount here }
    requires correction { IsSmall j }
    ensures value { result ≡ carried here water (amount m) j }
    ensures eighth { IsEighth here result }
{
    let share = portion(here as u64, m as u64, water as u64) as i64;
    (share + j).max(0).min(here / 8)
}

// The heat or salt that goes with m of the water.
#[inline]
fn carried(water: i64, m: i64, behind: i64, here: i64, ahead: i64) -> i64
    requires water { IsAmount water }
    requires moved { IsEighth water m }
    requires behind { IsAmount behind }
    requires here { IsAmount here }
    requires ahead { IsAmount ahead }
    ensures value { result ≡ carried here water (amount m) (correction behind here ahead) }
    ensures eighth { IsEighth here result }
{
    if m == 0 {
        0
    } else {
        corrected(water, m, here, correction(behind, here, ahead))
    }
}

/// What moves out of a cell through a face with this number, of either sign, where the flow comes from behind and goes ahead:
/// as much water as the number says, at most an eighth, and with it heat and salt in proportion, corrected by a sixteenth of the
/// lesser of the slopes behind and ahead, where both have one sign. At most an eighth of each goes. At a wall the cell behind is
/// the cell itself. Defined by this project.
#[inline]
pub fn given(u: i64, behind: Salty, here: Salty, ahead: Salty) -> Salty
    requires number { IsFaceNumber u }
    requires behind { IsSalty behind }
    requires here { IsSalty here }
    requires ahead { IsSalty ahead }
    ensures value { result ≡ given u behind here ahead }
    ensures eighths { AreEighths here result }
    // No more water moves than a face's number may say.
    ensures face { IsFaceNumber result.water }
{
    let water = moved(u, here.water);
    Salty {
        water,
        heat: carried(here.water, water, behind.heat, here.heat, ahead.heat),
        salt: carried(here.water, water, behind.salt, here.salt, ahead.salt),
    }
}

/// The same the other way. No number is the least of its type.
#[inline]
pub fn turned(it: Salty) -> Salty
    requires { AreSmall it }
    ensures { result ≡ turned it }
{
    Salty {
        water: -it.water,
        heat: -it.heat,
        salt: -it.salt,
    }
}

/// What moves through a face between the cells `here` and `there`, outward from `here`, where the four cells lie in a row: it
/// comes from `here` where the face's number is above 0, else from `there`.
#[inline]
pub fn through(u: i64, behind: Salty, here: Salty, there: Salty, beyond: Salty) -> Salty
    requires number { IsFaceNumber u }
    requires behind { IsSalty behind }
    requires here { IsSalty here }
    requires there { IsSalty there }
    requires beyond { IsSalty beyond }
    ensures value { result ≡ through u behind here there beyond }
    ensures outflow { AreOutflows here there result }
    ensures small { AreSmall result }
    // No more water moves, either way, than a face's number may say.
    ensures face { IsFaceNumber result.water }
{
    if u >= 0 {
        given(u, behind, here, there)
    } else {
        turned(given(u, beyond, there, here))
    }
}

/// What moves through a face is seen from both of its sides, with opposite signs. Neither cell gives more than an eighth, and no
/// more water than the number of a face may say: 2^40.
pub fn through_law()
    ensures turned { (u : ℤ) (behind here there beyond : Salty)
        → through (neg_ℤ u) beyond there here behind ≡ turned (through u behind here there beyond) }
    ensures outflow { (u : ℤ) (behind here there beyond : Salty) → IsSalty here → IsSalty there
        → AreOutflows here there (through u behind here there beyond) }
    ensures face { (u : ℤ) (behind here there beyond : Salty) → IsFaceNumber u → IsFaceNumber (through u behind here there beyond).water }
{}

/// At a wall behind a cell, where the cell stands for the one behind, nothing is corrected.
pub fn correction_law()
    ensures { (here ahead : ℤ) → correction here here ahead ≡ pos 0 }
{}
