// Lines at the end of a text, written by the crate `csv`, which quotes nothing here. A writer over memory fails only where there
// is none.
ghost use Rattle.std.specs.Prelude.{◌≡◌, ℕ, ◌≤◌, List, [], length, IfOk, OnOk};
ghost use Rattle.csv.specs.Records.{fields_of};
ghost use Rattle.cpl_stocks.specs.Lines.{line};
ghost use Rattle.cpl_stocks.specs.Writers.{Wrote, Writes};

use csv::{ByteRecord, QuoteStyle, Writer, WriterBuilder};
use std::alloc::{AllocError, Global};

/// A writer of an empty text with room for so many bytes.
pub(crate) fn new_writer(alloc: Global, room: usize) -> Result<Writer<Vec<u8>>, AllocError>
    ensures { IfOk result (λ writer. Wrote writer []) }
{
    let text = Vec::with_capacity(alloc, room)?;
    Ok(
        WriterBuilder::new()
            .quote_style(QuoteStyle::Never)
            .from_writer(text),
    )
}

/// Writes a line of two fields or more.
pub(crate) fn write_line(
    writer: &mut Writer<Vec<u8>>,
    fields: &ByteRecord,
) -> Result<(), AllocError>
    requires { 2 ≤ length (fields_of fields.now) }
    ensures { OnOk result (Writes writer.old writer.new (line (fields_of fields.now))) }
{
    let Ok(()) = writer.write_byte_record(fields) else {
        return Err(AllocError);
    };
    Ok(())
}

/// The text that was written.
pub(crate) fn text_of(writer: Writer<Vec<u8>>) -> Result<Vec<u8>, AllocError>
    ensures { (written : List ℕ) → Wrote writer written → IfOk result (λ text. text.items ≡ written) }
{
    let Ok(text) = writer.into_inner() else {
        return Err(AllocError);
    };
    Ok(text)
}
