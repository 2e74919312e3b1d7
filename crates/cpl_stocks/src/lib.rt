//! The two tables of a run: stocks and exchanges.
#![tactic(auto)]

mod date;
mod exchanges;
mod fields;
mod laws;
mod names;
mod partial;
mod rows;
mod stocks;
mod sums;
mod table;
mod words;
mod writer;

pub use exchanges::exchanges_text;
pub use laws::partial_law;
pub use partial::{PARTIAL_WORDS, Partial};
pub use rows::{Exchange, ExchangeRow, StockRow};
pub use stocks::stocks_text;
