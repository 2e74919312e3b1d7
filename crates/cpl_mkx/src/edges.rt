// The line of edges.
ghost use Rattle.std.specs.Prelude.{◌+◌, ◌<◌, ◌^◌};
ghost use Rattle.cpl_fixed.specs.Results.{Gives};
ghost use Rattle.cpl_lines.specs.Lines.{row_form};
ghost use Rattle.cpl_lines.specs.Reading.{row_at};
ghost use Rattle.cpl_lines.specs.Steps.{is_memory};
ghost use Rattle.cpl_mkx.specs.Readers.{edges_judged};

use crate::boxes::MOST_EDGE;
use cpl_lines::{LineFault, line_end, push_numbers, word};
use std::alloc::Global;

/// The edges of this many boxes side by side after this word, and the rest after the line.
#[tactic(auto, unfolding(cpl_lines::specs::Reading::row_at))]
pub(crate) fn edges_line<'a>(
    alloc: Global,
    bytes: &'a [u8],
    name: &[u8],
    boxes: u32,
) -> Result<(Vec<i64>, &'a [u8]), LineFault>
    requires { boxes + 1 < 2 ^ 32 }
    ensures { Gives is_memory (λ found. (found.0.items, found.1.now)) result (edges_judged (row_at (row_form name.now (boxes + 1)) bytes.now)) }
{
    let fields = word(bytes, name).ok_or(LineFault::Form)?;
    let mut edges = Vec::new(alloc);
    let (keeps, rest) = push_numbers(fields, boxes + 1, MOST_EDGE, &mut edges)?;
    let rest = line_end(rest).ok_or(LineFault::Form)?;
    if !keeps {
        return Err(LineFault::Limit);
    }
    Ok((edges, rest))
}
