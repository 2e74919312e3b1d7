// The sums of one piece, and the words that carry them.
ghost use Rattle.std.specs.Prelude.{◌≡◌, ℕ, ◌+◌, ◌*◌, List, length, replicate, All, FitsSigned, ℤ, pos};
ghost use Rattle.std.specs.Int.{w64, w128};
ghost use Rattle.cpl_stocks.specs.Partials.{HasShape, both, no_sums, numbers_of, numbers_of_words, words_of};

use crate::sums::add_rows;
use crate::words::{read_rows, write_numbers};

/// The sums over the cells of one piece, in the units of the rows of the two tables. Added up over all pieces they make the rows
/// of a coupling step (defined by this project).
#[derive(Clone, Copy, Debug, PartialEq, Eq)]
pub struct Partial {
    /// Of heat, water and salt the stocks of the air, the land, the ice and the ocean, what flies to the ice and to the ocean, and
    /// what entered and what left in the run so far.
    pub stocks: [[i128; 8]; 3],
    /// Of the five exchanges in their order, and of heat, water and salt in each: in flight before, given, taken, in flight after.
    pub exchanges: [[i128; 4]; 15],
}

/// How many words carry the sums of a piece.
pub const PARTIAL_WORDS: usize = 168;

impl Partial {
    /// No sums yet: all are 0.
    pub fn zero() -> Partial
        ensures { result ≡ no_sums }
    {
        Partial {
            stocks: [[0; 8]; 3],
            exchanges: [[0; 4]; 15],
        }
    }

    /// Adds the sums of another piece, each to its own. It takes no memory.
    pub fn add(&mut self, other: &Partial)
        requires { All (FitsSigned w128) (numbers_of (both self.old other.now)) }
        ensures { self.new ≡ both self.old other.now }
    {
        add_rows(&mut self.stocks, &other.stocks);
        add_rows(&mut self.exchanges, &other.exchanges);
    }

    /// Writes the words of the sums: of each its high and its low 64 bits, both as signed numbers, the high ones first. It takes no
    /// memory.
    pub fn write(&self, words: &mut [i64])
        requires { length words.old ≡ 168 }
        ensures { words.new ≡ words_of self.now }
    {
        let (stocks, exchanges) = words.split_at_mut(STOCK_WORDS);
        write_numbers(self.stocks.as_flattened(), stocks);
        write_numbers(self.exchanges.as_flattened(), exchanges);
    }

    /// The sums that have these words. It takes no memory.
    pub fn read(words: &[i64]) -> Partial
        requires { length words.now ≡ 168 }
        ensures numbers { numbers_of result ≡ numbers_of_words words.now }
        ensures shape { HasShape result }
    {
        let (stocks, exchanges) = words.split_at(STOCK_WORDS);
        let mut partial = Partial::zero();
        read_rows(stocks, &mut partial.stocks);
        read_rows(exchanges, &mut partial.exchanges);
        partial
    }
}

// How many words carry the stocks.
const STOCK_WORDS: usize = 48;
