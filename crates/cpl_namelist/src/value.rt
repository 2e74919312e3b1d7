// What values stand for.
ghost use Rattle.std.specs.Prelude.{◌≡◌, ◌+◌, ◌≤◌, ◌<◌, ◌^◌, length, Some, IfSome, option_map};
ghost use Rattle.cpl_fixed.specs.Decimals.{value_of};
ghost use Rattle.cpl_namelist.specs.Values.{in_range, natural, once, repeat, is_gregorian, logical, value};

use crate::table::{Holds, Row};
use crate::token::{Kind, digits_len, same_word};
use cpl_fixed::decimal;

// The number that digits stand for, however many they are, where it is below 2^32.
fn magnitude(digits: &[u8]) -> Option<u32>
    ensures { result ≡ in_range 0 4_294_967_295 (Some (value_of digits.now)) }
{
    match decimal(digits, 4_294_967_295) {
        Some(number) => Some(number as u32),
        None => None,
    }
}

// The number that an integer stands for, where it is in the range. No negative one is.
fn number(text: &[u8], low: u32, high: u32) -> Option<u32>
    ensures { result ≡ in_range low high (natural text.now) }
{
    let number = match text {
        [b'-', digits @ ..] => match magnitude(digits) {
            Some(0) => 0,
            _ => return None,
        },
        [b'+', digits @ ..] => magnitude(digits)?,
        _ => magnitude(text)?,
    };
    within(number, low, high)
}

// A repeat, from 1 to 64 times a number in the range.
fn repeat(text: &[u8], low: u32, high: u32) -> Option<(u32, u32)>
    ensures { result ≡ repeat text.now low high }
{
    let digits = digits_len(text);
    let times = number(&text[..digits], 1, 64)?;
    let each = number(text.get(digits + 1..).unwrap_or(&[]), low, high)?;
    Some((times, each))
}

// Whether a text, its marks and all, says `gregorian`, case aside.
fn is_gregorian(text: &[u8]) -> bool
    ensures { result ≡ is_gregorian text.now }
{
    if text.len() < 2 {
        return false;
    }
    same_word(&text[1..text.len() - 1], b"gregorian")
}

// The number that a logical stands for.
fn logical(text: &[u8]) -> u32
    ensures { result ≡ logical text.now }
{
    if same_word(text, b".true.") { 1 } else { 0 }
}

// How often a value stands for a number, and which, where the row may hold it.
pub fn value(row: Row, kind: Kind, text: &[u8]) -> Option<(u32, u32)>
    ensures { result ≡ value row kind text.now }
{
    match row.holds {
        Holds::Numbers | Holds::Moment => match kind {
            Kind::Integer => once(number(text, row.low, row.high)),
            Kind::Repeat => repeat(text, row.low, row.high),
            _ => None,
        },
        Holds::Calendar => match kind {
            Kind::Text if is_gregorian(text) => once(within(1, row.low, row.high)),
            _ => None,
        },
        Holds::Logical => match kind {
            Kind::Logical => once(within(logical(text), row.low, row.high)),
            _ => None,
        },
    }
}

fn once(number: Option<u32>) -> Option<(u32, u32)>
    ensures { result ≡ once number }
{
    Some((1, number?))
}

fn within(number: u32, low: u32, high: u32) -> Option<u32>
    ensures { result ≡ in_range low high (Some number) }
{
    if low <= number && number <= high {
        Some(number)
    } else {
        None
    }
}
