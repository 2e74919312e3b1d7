// The line of a grid's size.
ghost use Rattle.cpl_lines.specs.Reading.{row_at};
ghost use Rattle.cpl_lines.specs.Finding.{Finds};
ghost use Rattle.cpl_mkx.specs.BoxFormat.{size_form};
ghost use Rattle.cpl_mkx.specs.Readers.{size_line_of};

use cpl_lines::{letter, line_end, number, word};

/// A grid's size as it is spelled. Its numbers may break the limits.
#[derive(Clone, Copy)]
pub(crate) struct SizeNumbers {
    pub nx: u64,
    pub ny: u64,
    /// 0 or 1.
    pub cyclic: u8,
    /// 0 or 1.
    pub fold: u8,
}

/// The size after this word, and the rest after the line.
#[tactic(auto, unfolding(cpl_lines::specs::Reading::row_at))]
pub(crate) fn size_line<'a>(bytes: &'a [u8], name: &[u8]) -> Option<(SizeNumbers, &'a [u8])>
    ensures { Finds (λ found. (size_line_of name.now found.0, found.1.now)) result (row_at (size_form name.now) bytes.now) }
{
    let (nx, rest) = number(word(bytes, name)?)?;
    let (ny, rest) = number(rest)?;
    let (cyclic, rest) = letter(rest, b"01")?;
    let (fold, rest) = letter(rest, b"01")?;
    let size = SizeNumbers {
        nx,
        ny,
        cyclic,
        fold,
    };
    Some((size, line_end(rest)?))
}
