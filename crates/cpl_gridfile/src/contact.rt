// The line of a contact.
ghost use Rattle.std.specs.Prelude.{◌≡◌};
ghost use Rattle.cpl_lines.specs.Reading.{fields_at, row_at};
ghost use Rattle.cpl_lines.specs.Finding.{Finds};
ghost use Rattle.cpl_gridfile.specs.MeshFormat.{span_kinds, contact_form};
ghost use Rattle.cpl_gridfile.specs.Readers.{span_fields_of, contact_line_of};

use cpl_lines::{letter, line_end, number, word};

/// A range as it is spelled. Its numbers may break the limits.
#[derive(Clone, Copy)]
pub(crate) struct SpanNumbers {
    pub tile: u64,
    /// W, E, S or N.
    pub side: u8,
    pub lo: u64,
    pub hi: u64,
}

/// A contact as it is spelled. Its numbers may break the limits.
#[derive(Clone, Copy)]
pub(crate) struct ContactNumbers {
    pub first: SpanNumbers,
    pub second: SpanNumbers,
    /// 0 or 1.
    pub flip: u8,
}

// The fields of a range.
fn span(bytes: &[u8]) -> Option<(SpanNumbers, &[u8])>
    ensures { Finds (λ found. (span_fields_of found.0, found.1.now)) result (fields_at span_kinds bytes.now) }
{
    let (tile, rest) = number(bytes)?;
    let (side, rest) = letter(rest, b"WESN")?;
    let (lo, rest) = number(rest)?;
    let (hi, rest) = number(rest)?;
    Some((SpanNumbers { tile, side, lo, hi }, rest))
}

/// The two ranges of a contact and whether it is flipped, and the rest after the line.
#[tactic(auto, unfolding(cpl_lines::specs::Reading::row_at))]
pub(crate) fn contact_line(bytes: &[u8]) -> Option<(ContactNumbers, &[u8])>
    ensures { Finds (λ found. (contact_line_of found.0, found.1.now)) result (row_at contact_form bytes.now) }
{
    let (first, rest) = span(word(bytes, b"contact")?)?;
    let (second, rest) = span(rest)?;
    let (flip, rest) = letter(rest, b"01")?;
    let contact = ContactNumbers {
        first,
        second,
        flip,
    };
    Some((contact, line_end(rest)?))
}
