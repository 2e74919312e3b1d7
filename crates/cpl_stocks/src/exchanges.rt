// The table of exchanges.
ghost use Rattle.std.specs.Prelude.{◌≡◌, [], IfOk, OnOk};
ghost use Rattle.cpl_stocks.specs.Fields.{exchange_fields};
ghost use Rattle.csv.specs.Records.{partial_of};
ghost use Rattle.cpl_stocks.specs.Lines.{Adds};
ghost use Rattle.cpl_stocks.specs.Tables.{exchanges_text};

use crate::ExchangeRow;
use crate::fields::{push_integer, push_number, push_sum, push_text};
use crate::names::{exchange_name, quantity_name};
use crate::table::{TableRow, table_text};
use csv::ByteRecord;
use std::alloc::{AllocError, Global};

// How many bytes a line has at most: numbers of 10, 20 and 40 digits, two words, 6 commas and a line feed.
const LONGEST: usize = 10 + 9 + 5 + 2 * 20 + 2 * 40 + 7;

impl TableRow for ExchangeRow {
    ghost fields = { exchange_fields };

    fn push_fields(&self, line: &mut ByteRecord) -> Result<(), AllocError> {
        push_integer(line, self.step)?;
        push_text(line, exchange_name(self.exchange))?;
        push_text(line, quantity_name(self.quantity))?;
        push_number(line, self.before)?;
        push_sum(line, self.gave)?;
        push_sum(line, self.took)?;
        push_number(line, self.after)?;
        Ok(())
    }
}

/// The table of exchanges: a line of the columns' names, and then a line for each row, in order. Its fields are in decimal,
/// with commas between them. It holds the text and nothing else for each row. It answers an error only where there is no
/// memory. Defined by this project.
pub fn exchanges_text(alloc: Global, rows: &[ExchangeRow]) -> Result<Vec<u8>, AllocError>
    ensures { IfOk result (λ text. text.items ≡ exchanges_text rows.now) }
{
    let columns: [&[u8]; 7] = [
        b"step",
        b"exchange",
        b"quantity",
        b"before",
        b"gave",
        b"took",
        b"after",
    ];
    table_text(alloc, &columns, rows, LONGEST)
}
