// Numbers written in decimal digits.
ghost use Rattle.std.specs.Prelude.{◌≡◌, ◌<◌, ◌^◌};
ghost use Rattle.std.specs.List.{list_all};
ghost use Rattle.std.specs.Char.{is_ascii_digit};
ghost use Rattle.cpl_fixed.specs.Decimals.{at_most, is_numeral, value_of};

/// The number that decimal digits stand for, where it is at most `most`. Zeros may lead, and no digits stand for 0.
pub fn decimal(digits: &[u8], most: u64) -> Option<u64>
    ensures { result ≡ at_most most (value_of digits.now) }
{
    let mut value = 0u64;
    for digit in digits {
        value = value
            .checked_mul(10)?
            .checked_add(u64::from(digit.saturating_sub(b'0')))?;
        if value > most {
            return None;
        }
    }
    Some(value)
}

fn are_digits(text: &[u8]) -> bool
    ensures { result ≡ list_all is_ascii_digit text.now }
{
    text.iter().all(|c| c.is_ascii_digit())
}

/// Whether this is `0`, or 1 to `most` digits that don't begin with a zero.
pub fn is_numeral(text: &[u8], most: usize) -> bool
    requires { most < 2 ^ 32 }
    ensures { result ≡ is_numeral most text.now }
{
    match text {
        [] => false,
        [b'0', digits @ ..] => digits.is_empty(),
        [_, digits @ ..] => digits.len() < most && are_digits(text),
    }
}
