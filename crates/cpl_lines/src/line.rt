// Words and lines at the front of bytes.
ghost use Rattle.std.specs.Prelude.{◌≡◌, [], ◌∷◌, ◌++◌};
ghost use Rattle.cpl_lines.specs.Lines.{line_feed, row, row_form};
ghost use Rattle.cpl_lines.specs.Reading.{word_at, row_at};
ghost use Rattle.cpl_lines.specs.Finding.{Finds};

use crate::field::number;

/// The rest after a word.
pub fn word<'a>(bytes: &'a [u8], word: &[u8]) -> Option<&'a [u8]>
    ensures { Finds (λ rest. rest.now) result (word_at word.now bytes.now) }
{
    bytes.strip_prefix(word)
}

/// The rest after a line feed.
pub fn line_end(bytes: &[u8]) -> Option<&[u8]>
    ensures { Finds (λ rest. rest.now) result (word_at line_feed bytes.now) }
{
    match bytes {
        [b'\n', rest @ ..] => Some(rest),
        _ => None,
    }
}

/// The rest after a line of a word alone.
#[tactic(auto, unfolding(crate::specs::Reading::row_at))]
pub fn word_line<'a>(bytes: &'a [u8], name: &[u8]) -> Option<&'a [u8]>
    ensures { Finds (λ rest. (row name.now [], rest.now)) result (row_at (row_form name.now 0) bytes.now) }
{
    line_end(word(bytes, name)?)
}

/// The number of a line of a word and one number, and the rest after it.
#[tactic(auto, unfolding(crate::specs::Reading::row_at))]
pub fn number_line<'a>(bytes: &'a [u8], name: &[u8]) -> Option<(u64, &'a [u8])>
    ensures { Finds (λ found. (row name.now (found.0 ∷ []), found.1.now)) result
        (row_at (row_form name.now 1) bytes.now) }
{
    let (n, rest) = number(word(bytes, name)?)?;
    Some((n, line_end(rest)?))
}

/// The numbers of a line of a word and two numbers, and the rest after it.
#[tactic(auto, unfolding(crate::specs::Reading::row_at))]
pub fn pair_line<'a>(bytes: &'a [u8], name: &[u8]) -> Option<((u64, u64), &'a [u8])>
    ensures { Finds (λ found. (row name.now (found.0.0 ∷ found.0.1 ∷ []), found.1.now)) result
        (row_at (row_form name.now 2) bytes.now) }
{
    let (first, rest) = number(word(bytes, name)?)?;
    let (second, rest) = number(rest)?;
    Some(((first, second), line_end(rest)?))
}
