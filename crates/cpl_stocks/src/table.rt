// A table of lines.
ghost use Rattle.std.specs.Prelude.{◌≡◌, ℕ, ◌≤◌, [], List, length, map, IfOk, OnOk};
ghost use Rattle.csv.specs.Records.{partial_of};
ghost use Rattle.cpl_stocks.specs.Lines.{Adds, table};

use crate::writer::{new_writer, text_of, write_line};
use csv::ByteRecord;
use std::alloc::{AllocError, Global};

/// A row of a table, as fields of bytes.
pub(crate) trait TableRow {
    /// Its fields.
    ghost fields: { Self → List (List ℕ) };

    /// Adds its fields to a line that ends with a whole field.
    fn push_fields(&self, line: &mut ByteRecord) -> Result<(), AllocError>
        requires { partial_of line.old ≡ [] }
        ensures { OnOk result (Adds line.old line.new (fields self.now)) };
}

/// The text of a table: its columns' names, and then the rows. A line has at most `longest` bytes.
pub(crate) fn table_text<R: TableRow>(
    alloc: Global,
    columns: &[&[u8]],
    rows: &[R],
    longest: usize,
) -> Result<Vec<u8>, AllocError>
    requires columns { 2 ≤ length columns.now }
    requires fields { (row : R) → 2 ≤ length (R.fields row) }
    ensures { IfOk result (λ text. text.items ≡ table (map (λ name. name.now) columns.now) (map R.fields rows.now)) }
{
    let room = rows.len().saturating_add(1).saturating_mul(longest);
    let mut writer = new_writer(alloc, room)?;
    let mut line = ByteRecord::from_fields(alloc, columns)?;
    write_line(&mut writer, &line)?;
    for row in rows {
        line.clear();
        row.push_fields(&mut line)?;
        write_line(&mut writer, &line)?;
    }
    text_of(writer)
}
