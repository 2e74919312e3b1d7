// Dates of a table.
ghost use Rattle.std.specs.Prelude.{◌≡◌, ◌<◌, ◌+◌, ◌/◌, ◌%◌};
ghost use Rattle.cpl_stocks.specs.Fields.{date_text};

use cpl_namelist::Civil;

// The digit of a number at the place of this power of ten.
fn digit(n: u64, power: u64) -> u8
    requires { 0 < power }
    ensures { result ≡ 48 + n / power % 10 }
{
    b'0' + (n / power % 10) as u8
}

/// A date as `YYYY-MM-DD`.
pub(crate) fn date_text(date: &Civil) -> [u8; 10]
    ensures { result ≡ date_text date.now }
{
    let year = date.year.unsigned_abs();
    let month = date.month.unsigned_abs();
    let day = date.day.unsigned_abs();
    [
        digit(year, 1000),
        digit(year, 100),
        digit(year, 10),
        digit(year, 1),
        b'-',
        digit(month, 10),
        digit(month, 1),
        b'-',
        digit(day, 10),
        digit(day, 1),
    ]
}
