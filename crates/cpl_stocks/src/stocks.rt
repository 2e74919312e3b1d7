// The table of stocks.
ghost use Rattle.std.specs.Prelude.{◌≡◌, [], IfOk, OnOk};
ghost use Rattle.cpl_stocks.specs.Fields.{stock_fields};
ghost use Rattle.csv.specs.Records.{partial_of};
ghost use Rattle.cpl_stocks.specs.Lines.{Adds};
ghost use Rattle.cpl_stocks.specs.Tables.{stocks_text};

use crate::StockRow;
use crate::date::date_text;
use crate::fields::{push_integer, push_number, push_numbers, push_text};
use crate::names::quantity_name;
use crate::table::{TableRow, table_text};
use csv::ByteRecord;
use std::alloc::{AllocError, Global};

// How many bytes a line has at most: numbers of 10 and 20 digits, a date, a word, 12 commas and a line feed.
const LONGEST: usize = 10 + 10 + 20 + 5 + 9 * 20 + 13;

impl TableRow for StockRow {
    ghost fields = { stock_fields };

    fn push_fields(&self, line: &mut ByteRecord) -> Result<(), AllocError> {
        push_integer(line, self.step)?;
        push_text(line, &date_text(&self.date))?;
        push_number(line, self.seconds)?;
        push_text(line, quantity_name(self.quantity))?;
        push_numbers(
            line,
            &[
                &self.air,
                &self.land,
                &self.ice,
                &self.ocean,
                &self.to_ice,
                &self.to_ocean,
                &self.entered,
                &self.left,
                &self.total,
            ],
        )?;
        Ok(())
    }
}

/// The table of stocks: a line of the columns' names, and then a line for each row, in order. Its fields are in decimal, with
/// commas between them; a date is `YYYY-MM-DD`. It holds the text and nothing else for each row. It answers an error only
/// where there is no memory. Defined by this project.
pub fn stocks_text(alloc: Global, rows: &[StockRow]) -> Result<Vec<u8>, AllocError>
    ensures { IfOk result (λ text. text.items ≡ stocks_text rows.now) }
{
    let columns: [&[u8]; 13] = [
        b"step",
        b"date",
        b"seconds",
        b"quantity",
        b"air",
        b"land",
        b"ice",
        b"ocean",
        b"to_ice",
        b"to_ocean",
        b"entered",
        b"left",
        b"total",
    ];
    table_text(alloc, &columns, rows, LONGEST)
}
