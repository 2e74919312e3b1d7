// The line of digits that tell which boxes are wet.
ghost use Rattle.std.specs.Prelude.{replicate, codes};
ghost use Rattle.cpl_fixed.specs.Results.{Gives};
ghost use Rattle.cpl_lines.specs.Fields.{OneOf};
ghost use Rattle.cpl_lines.specs.Reading.{fields_at};
ghost use Rattle.cpl_lines.specs.Steps.{is_memory};
ghost use Rattle.cpl_mkx.specs.Readers.{digits_added};

use cpl_lines::{LineFault, letter};

/// Puts what this many digits tell at the end of a list, and answers the rest after them.
pub(crate) fn push_digits<'a>(
    bytes: &'a [u8],
    count: u32,
    list: &mut Vec<bool>,
) -> Result<&'a [u8], LineFault>
    ensures { Gives is_memory (λ rest. (rest.now, list.new.items)) result
        (digits_added list.old.items (fields_at (replicate count (OneOf (codes "01"))) bytes.now)) }
{
    let mut rest = bytes;
    for _ in 0..count {
        let Some((digit, others)) = letter(rest, b"01") else {
            return Err(LineFault::Form);
        };
        list.push(digit == b'1')?;
        rest = others;
    }
    Ok(rest)
}
