// Fields at the end of a line that ends with a whole field.
ghost use Rattle.std.specs.Prelude.{◌≡◌, [], ◌∷◌, map, OnOk};
ghost use Rattle.std.specs.Fmt.{signed_decimal};
ghost use Rattle.csv.specs.Records.{partial_of};
ghost use Rattle.cpl_stocks.specs.Lines.{Adds};

use csv::ByteRecord;
use itoa::{Buffer, Integer};
use std::alloc::AllocError;

/// Adds a field of these bytes.
pub(crate) fn push_text(line: &mut ByteRecord, text: &[u8]) -> Result<(), AllocError>
    requires { partial_of line.old ≡ [] }
    ensures { OnOk result (Adds line.old line.new (text.now ∷ [])) }
{
    line.push_field(text)
}

/// Adds an integer of any type in decimal digits.
pub(crate) fn push_integer<I: Integer>(line: &mut ByteRecord, number: I) -> Result<(), AllocError>
    requires { partial_of line.old ≡ [] }
    ensures { OnOk result (Adds line.old line.new (I.text number ∷ [])) }
{
    let mut buffer = Buffer::new();
    push_text(line, buffer.format(number).as_bytes())
}

/// Adds a number in decimal digits.
pub(crate) fn push_number(line: &mut ByteRecord, number: i64) -> Result<(), AllocError>
    requires { partial_of line.old ≡ [] }
    ensures { OnOk result (Adds line.old line.new (signed_decimal number ∷ [])) }
{
    push_integer(line, number)
}

/// Adds a sum of numbers in decimal digits.
pub(crate) fn push_sum(line: &mut ByteRecord, sum: i128) -> Result<(), AllocError>
    requires { partial_of line.old ≡ [] }
    ensures { OnOk result (Adds line.old line.new (signed_decimal sum ∷ [])) }
{
    push_integer(line, sum)
}

/// Adds numbers in decimal digits.
pub(crate) fn push_numbers(line: &mut ByteRecord, numbers: &[&i64]) -> Result<(), AllocError>
    requires { partial_of line.old ≡ [] }
    ensures { OnOk result (Adds line.old line.new (map (λ number. signed_decimal number.now) numbers.now)) }
{
    for number in numbers {
        push_number(line, **number)?;
    }
    Ok(())
}
