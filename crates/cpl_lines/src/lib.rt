//! Texts of lines: a line is a word and fields, and a format says which line comes next. Reading, with the exact place of the
//! first fault, and spelling.
#![tactic(auto)]

mod fault;
mod field;
mod line;
mod numbers;
mod print;

pub use fault::{LineFault, LinesError};
pub use field::{letter, number};
pub use line::{line_end, number_line, pair_line, word, word_line};
pub use numbers::push_numbers;
pub use print::{print_end, print_letter, print_number, print_row};
