// The numbers that the values of a name stand for.
ghost use Rattle.std.specs.Prelude.{◌≡◌, ◌+◌, ◌≤◌, slice_index, ◌<◌, ◌^◌, ◌++◌, length, replicate, take, Some, option_map};
ghost use Rattle.cpl_namelist.specs.Tokens.{tokens_from};
ghost use Rattle.cpl_namelist.specs.Numbers.{listed, kept, suits, is_date, is_moment, fitting, LeadsTo};

use crate::table::{Holds, Row};
use crate::token::{Cursor, Kind, next_token};
use crate::value::value;
use jiff::civil::Date;

/// The first `count` of twelve places.
#[derive(Clone, Copy)]
pub struct Numbers {
    pub places: [u32; 12],
    pub count: usize,
}

impl Numbers {
    /// The number at a place, 0 past the last.
    pub fn at(self, place: usize) -> u32
        ensures { result ≡ slice_index (listed self) place }
    {
        if place < self.count {
            self.places.get(place).copied().unwrap_or(0)
        } else {
            0
        }
    }

    // These numbers, and then so many times another.
    fn with(self, times: u32, number: u32) -> Numbers
        requires { self.count + times ≤ 12 }
        ensures value { listed result ≡ listed self ++ replicate times number }
        ensures count { result.count ≡ self.count + times }
    {
        let mut next = self;
        for _ in 0..times {
            next.places[next.count] = number;
            next.count += 1;
        }
        next
    }
}

// Where a token leads among the values of a name.
enum Next {
    // The values end before it.
    End,
    // The numbers so far.
    More(Numbers),
    // The values are wrong.
    Wrong,
}

fn next_after(row: Row, numbers: Numbers, kind: Kind, text: &[u8]) -> Next
    requires small { row.count ≤ 12 }
    requires room { numbers.count ≤ row.count }
    ensures { LeadsTo row numbers kind text.now result }
{
    match kind {
        Kind::Word | Kind::Slash => Next::End,
        Kind::Equals | Kind::Comma => Next::More(numbers),
        _ => match value(row, kind, text) {
            Some((times, number)) if times as usize <= row.count - numbers.count => {
                Next::More(numbers.with(times, number))
            }
            _ => Next::Wrong,
        },
    }
}

fn is_date(year: u32, month: u32, day: u32) -> bool
    ensures { result ≡ is_date year month day }
{
    if year < 1 || year > 9_999 || month < 1 || month > 12 || day < 1 || day > 31 {
        return false;
    }
    Date::new(year as i16, month as i8, day as i8).is_ok()
}

fn is_moment(numbers: Numbers) -> bool
    requires { numbers.count ≡ 6 }
    ensures { result ≡ is_moment (listed numbers) }
{
    let [year, month, day, hour, minute, second, ..] = numbers.places;
    is_date(year, month, day) && hour <= 23 && minute <= 59 && second <= 59
}

// Whether these are as many as the row holds, and a moment where it holds one.
fn suits(row: Row, numbers: Numbers) -> bool
    requires { numbers.count ≤ 12 }
    ensures { result ≡ suits row (listed numbers) }
{
    if numbers.count != row.count {
        return false;
    }
    match row.holds {
        Holds::Moment => numbers.count == 6 && is_moment(numbers),
        _ => true,
    }
}

/// The numbers that the values in front stand for, up to the next name or the end of the group, where they fit the row.
pub fn numbers_in(row: Row, line: u32, bytes: &[u8]) -> Option<Numbers>
    requires lines { line + length bytes.now < 2 ^ 32 }
    requires small { row.count ≤ 12 }
    ensures { option_map listed result ≡ fitting row (tokens_from 0 line bytes.now) }
{
    let mut numbers = Numbers {
        places: [0; 12],
        count: 0,
    };
    let mut cursor = Cursor { line, rest: bytes };
    while let Some((token, after)) = next_token(cursor.line, cursor.rest) {
        match next_after(row, numbers, token.kind, token.text) {
            Next::End => return fitted(row, numbers),
            Next::More(next) => numbers = next,
            Next::Wrong => return None,
        }
        cursor = after;
    }
    fitted(row, numbers)
}

fn fitted(row: Row, numbers: Numbers) -> Option<Numbers>
    requires { numbers.count ≤ 12 }
    ensures { option_map listed result ≡ kept (suits row) (Some (listed numbers)) }
{
    if suits(row, numbers) {
        Some(numbers)
    } else {
        None
    }
}
