// The calendar: a moment so many seconds after a start.
ghost use Rattle.std.specs.Prelude.{IfOk};
ghost use Rattle.cpl_namelist.specs.Civil.{IsStart};

use crate::texts::read;
use cpl_namelist::{Civil, Names};
use std::alloc::Global;
use std::process::Abort;
use std::test::Fail;

/// Names that start at this date and time of day.
fn starting(alloc: Global, date: &str) -> Result<Names, Fail>
    ensures { IfOk result (λ names. IsStart names.start) }
{
    let text = format!(in alloc;
        "&coupler_nml current_date={date} calendar='gregorian' dt_atmos=1 dt_cpld=1 / &ocean_nml dt_ocean=1 /"
    )?;
    match read(text.as_str()) {
        Ok(names) => Ok(names),
        Err(_) => Err("no names")?,
    }
}

#[test]
fn the_last_second(rt: HostRuntime) -> Result<(), Fail> {
    let names = starting(rt.alloc(), "9999,12,31,23,0,0")?;
    // 23:00:00 and 3599 seconds is 23:59:59; one more is the year 10000
    assert_eq!(rt; names.fits(3_599), true);
    assert_eq!(rt; names.fits(3_600), false);
    assert_eq!(rt; names.fits(0), true);
    assert_eq!(rt; names.fits(i64::MAX), false);
    Ok(())
}

/// A start, seconds, and the date then.
const DATES: [(&'static str, i64, i64, i64, i64); 12] = [
    // an hour before March of a common year
    ("2001,2,28,23,0,0", 0, 2001, 2, 28),
    ("2001,2,28,23,0,0", 3_599, 2001, 2, 28),
    ("2001,2,28,23,0,0", 3_600, 2001, 3, 1),
    // 29 February of 2000 and 2004, not of 1900 and 2100
    ("2000,2,28,12,0,0", 43_200, 2000, 2, 29),
    ("2004,2,28,12,0,0", 43_200, 2004, 2, 29),
    ("1900,2,28,12,0,0", 43_200, 1900, 3, 1),
    ("2100,2,28,12,0,0", 43_200, 2100, 3, 1),
    ("2000,2,29,0,0,0", 86_400, 2000, 3, 1),
    // the year's end
    ("1999,12,31,23,59,59", 1, 2000, 1, 1),
    ("2001,4,30,0,0,0", 86_400, 2001, 5, 1),
    // 400 years have 146097 days
    ("1,1,1,0,0,0", 12_622_780_800, 401, 1, 1),
    // all days of the calendar but the last: 3652058
    ("1,1,1,0,0,0", 315_537_811_200, 9999, 12, 31),
];

fn date_is(rt: &impl Abort, names: &Names, seconds: i64, date: Civil)
    requires { IsStart names.now.start }
{
    if seconds >= 0 && names.fits(seconds) {
        assert!(rt; names.date_of(seconds) == date, "after {seconds}");
        assert!(rt;
            i64::from(names.month_of(seconds)) == date.month,
            "after {seconds}"
        );
    } else {
        panic!(rt; "{seconds} don't fit");
    }
}

fn all_dates(
    rt: &impl Abort,
    alloc: Global,
    cases: &[(&str, i64, i64, i64, i64)],
) -> Result<(), Fail> {
    for (date, seconds, year, month, day) in cases {
        let names = starting(alloc, date)?;
        date_is(
            rt,
            &names,
            *seconds,
            Civil {
                year: *year,
                month: *month,
                day: *day,
            },
        );
    }
    Ok(())
}

#[test]
fn months_and_dates(rt: HostRuntime) -> Result<(), Fail> {
    all_dates(&rt, rt.alloc(), &DATES)
}
