// Rows of many numbers.
ghost use Rattle.std.specs.Prelude.{◌≡◌, ◌<◌, ◌^◌, true, replicate};
ghost use Rattle.cpl_fixed.specs.Results.{Gives};
ghost use Rattle.cpl_lines.specs.Fields.{AnyNumber};
ghost use Rattle.cpl_lines.specs.Reading.{fields_at};
ghost use Rattle.cpl_lines.specs.Steps.{is_memory, numbers_added};

use crate::LineFault;
use crate::field::number;

/// Puts this many numbers at the end of a list, each cut to `most`, and tells whether all are at most that, and the rest
/// after them. So a line's form can be judged before its limits, and no count reserves memory.
pub fn push_numbers<'a>(
    bytes: &'a [u8],
    count: u32,
    most: u64,
    list: &mut Vec<i64>,
) -> Result<(bool, &'a [u8]), LineFault>
    requires { most < 2 ^ 63 }
    ensures { Gives is_memory (λ found. (found.0, found.1.now, list.new.items)) result
        (numbers_added most true list.old.items (fields_at (replicate count AnyNumber) bytes.now)) }
{
    let mut keeps = true;
    let mut rest = bytes;
    for _ in 0..count {
        let Some((n, others)) = number(rest) else {
            return Err(LineFault::Form);
        };
        keeps = keeps && n <= most;
        list.push(n.min(most) as i64)?;
        rest = others;
    }
    Ok((keeps, rest))
}
