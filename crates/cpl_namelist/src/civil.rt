// The calendar of a run: the proleptic Gregorian calendar of the years 1 to 9999, without leap seconds.
ghost use Rattle.std.specs.Prelude.{◌≡◌, ◌+◌, ◌*◌, ◌^◌, ◌<◌, ◌↔◌, pos, ◌≤ℤ◌, IsTrue, Some, unsigned_abs};
ghost use Rattle.jiff.specs.Words.{IsDate, IsYmd};
ghost use Rattle.cpl_namelist.specs.Civil.{IsStart, IsThen, IsDaysLater, Fits, part, civil_after, days_after, civil_of};

use crate::names::Names;
use jiff::ToSpan;
use jiff::civil::{Date, date};

/// A date.
#[derive(Clone, Copy, Debug, PartialEq, Eq)]
pub struct Civil {
    pub year: i64,
    pub month: i64,
    pub day: i64,
}

// The greatest number of days from one date of `jiff` to another.
const MOST_DAYS: u64 = 7_304_483;

// A part of a start, which is never negative.
fn part(start: &[i64; 6], k: usize) -> u64
    requires { k < 6 }
    ensures { result ≡ part start.now k }
{
    start[k].unsigned_abs()
}

// The seconds since midnight.
fn clock(hour: u64, minute: u64, second: u64) -> u64
    requires hour { hour < 24 }
    requires minute { minute < 60 }
    requires second { second < 60 }
    ensures value { result ≡ 3600 * hour + 60 * minute + second }
    ensures small { result < 86400 }
{
    3_600 * hour + 60 * minute + second
}

// The whole days from the start's date to the moment so many seconds after the start.
fn days_after(start: &[i64; 6], seconds: u64) -> u64
    requires start { IsStart start.now }
    requires small { seconds < 2 ^ 63 }
    ensures { result ≡ days_after start.now seconds }
{
    let hour = part(start, 3);
    let minute = part(start, 4);
    let second = part(start, 5);
    (clock(hour, minute, second) + seconds) / 86_400
}

fn date_of_parts(year: u64, month: u64, day: u64) -> Date
    requires { IsDate (pos year) (pos month) (pos day) }
    ensures { IsYmd (pos year) (pos month) (pos day) result }
{
    date(year as i16, month as i8, day as i8)
}

// The date so many days later, where it is of year 9999 at most.
fn days_later(first: Date, days: u64) -> Option<Date>
    ensures { IsDaysLater first days result }
{
    if days > MOST_DAYS {
        return None;
    }
    match first.checked_add((days as i64).days()) {
        Ok(date) => Some(date),
        Err(_) => None,
    }
}

// The date of the moment so many seconds after the start, where it is of year 9999 at most.
fn date_after(start: &[i64; 6], seconds: u64) -> Option<Date>
    requires start { IsStart start.now }
    requires small { seconds < 2 ^ 63 }
    ensures { IsThen (civil_after start.now seconds) result }
{
    let first = date_of_parts(part(start, 0), part(start, 1), part(start, 2));
    days_later(first, days_after(start, seconds))
}

impl Names {
    /// Whether the moment so many seconds after the start is 9999-12-31 23:59:59 at the latest.
    pub fn fits(&self, seconds: i64) -> bool
        requires start { IsStart self.now.start }
        requires forward { pos 0 ≤ℤ seconds }
        ensures { IsTrue result ↔ Fits self.now.start (unsigned_abs seconds) }
    {
        date_after(&self.start, seconds.unsigned_abs()).is_some()
    }

    /// The month, 1 to 12, of the moment so many seconds after the start.
    pub fn month_of(&self, seconds: i64) -> u32
        requires start { IsStart self.now.start }
        requires forward { pos 0 ≤ℤ seconds }
        requires fits { Fits self.now.start (unsigned_abs seconds) }
        ensures { result ≡ (civil_after self.now.start (unsigned_abs seconds)).1 }
    {
        self.date(seconds).month() as u32
    }

    /// The date of the moment so many seconds after the start.
    pub fn date_of(&self, seconds: i64) -> Civil
        requires start { IsStart self.now.start }
        requires forward { pos 0 ≤ℤ seconds }
        requires fits { Fits self.now.start (unsigned_abs seconds) }
        ensures { result ≡ civil_of (civil_after self.now.start (unsigned_abs seconds)) }
    {
        let date = self.date(seconds);
        Civil {
            year: i64::from(date.year()),
            month: i64::from(date.month()),
            day: i64::from(date.day()),
        }
    }

    fn date(&self, seconds: i64) -> Date
        requires start { IsStart self.now.start }
        requires forward { pos 0 ≤ℤ seconds }
        requires fits { Fits self.now.start (unsigned_abs seconds) }
        ensures { IsThen (civil_after self.now.start (unsigned_abs seconds)) (Some result) }
    {
        match date_after(&self.start, seconds.unsigned_abs()) {
            Some(date) => date,
            None => unreachable!(),
        }
    }
}
