// Fields at the front of bytes.
ghost use Rattle.std.specs.Prelude.{◌≡◌, [], ◌∷◌};
ghost use Rattle.cpl_lines.specs.Fields.{Number, Letter, AnyNumber, OneOf};
ghost use Rattle.cpl_lines.specs.Reading.{word_at, number_at, field_at};
ghost use Rattle.cpl_lines.specs.Finding.{Finds, digits_at};

// How many digits a number has at most.
const DIGITS: usize = 19;

// The number that all digits at the front stand for, if they are few enough, and the rest after them.
fn digits(bytes: &[u8]) -> Option<(u64, &[u8])>
    ensures { Finds (λ found. (found.0, found.1.now)) result (digits_at 0 0 bytes.now) }
{
    let mut value = 0u64;
    let mut count = 0usize;
    let mut rest = bytes;
    while let [digit, others @ ..] = rest {
        if !digit.is_ascii_digit() {
            break;
        }
        if count == DIGITS {
            return None;
        }
        value = 10 * value + u64::from(*digit - b'0');
        count += 1;
        rest = others;
    }
    Some((value, rest))
}

// `0`, or digits without a leading zero, and the rest after them.
fn numeral(bytes: &[u8]) -> Option<(u64, &[u8])>
    ensures { Finds (λ found. (found.0, found.1.now)) result (number_at bytes.now) }
{
    match bytes {
        [b'0', next, ..] if next.is_ascii_digit() => None,
        [digit, ..] if digit.is_ascii_digit() => digits(bytes),
        _ => None,
    }
}

/// The rest after a blank.
pub(crate) fn blank(bytes: &[u8]) -> Option<&[u8]>
    ensures { Finds (λ rest. rest.now) result (word_at (32 ∷ []) bytes.now) }
{
    match bytes {
        [b' ', rest @ ..] => Some(rest),
        _ => None,
    }
}

/// The number after a blank, of 1 to 19 digits without a leading zero, and the rest after it.
#[tactic(auto, unfolding(crate::specs::Reading::field_at))]
pub fn number(bytes: &[u8]) -> Option<(u64, &[u8])>
    ensures { Finds (λ found. (Number found.0, found.1.now)) result (field_at AnyNumber bytes.now) }
{
    numeral(blank(bytes)?)
}

/// The letter after a blank, one of these, and the rest after it.
#[tactic(auto, unfolding(crate::specs::Reading::field_at))]
pub fn letter<'a>(bytes: &'a [u8], letters: &[u8]) -> Option<(u8, &'a [u8])>
    ensures { Finds (λ found. (Letter found.0, found.1.now)) result (field_at (OneOf letters.now) bytes.now) }
{
    match blank(bytes)? {
        [letter, rest @ ..] if letters.contains(letter) => Some((*letter, rest)),
        _ => None,
    }
}
