// Numbers of 128 bits as words of 64 bits.
ghost use Rattle.std.specs.Prelude.{◌≡◌, ◌*◌, length};
ghost use Rattle.cpl_stocks.specs.Partials.{AreRows, high_word, in_rows, low_word, number_of_words, numbers_of_words, words_of_numbers};

// One more than the greatest word without a sign.
const WORD: u128 = 18_446_744_073_709_551_616;

fn high_word(number: i128) -> i64
    ensures { result ≡ high_word number }
{
    ((number.cast_unsigned() / WORD) as u64).cast_signed()
}

fn low_word(number: i128) -> i64
    ensures { result ≡ low_word number }
{
    ((number.cast_unsigned() % WORD) as u64).cast_signed()
}

fn number_of_words(high: i64, low: i64) -> i128
    ensures { result ≡ number_of_words high low }
{
    (u128::from(high.cast_unsigned()) * WORD + u128::from(low.cast_unsigned())).cast_signed()
}

/// Writes the words of numbers, the high one of each first.
pub(crate) fn write_numbers(numbers: &[i128], words: &mut [i64])
    requires { length words.old ≡ 2 * length numbers.now }
    ensures { words.new ≡ words_of_numbers numbers.now }
{
    for i in 0..numbers.len() {
        words[2 * i] = high_word(numbers[i]);
        words[2 * i + 1] = low_word(numbers[i]);
    }
}

// The numbers that have these words.
fn read_row<const N: usize>(words: &[i64]) -> [i128; N]
    requires { length words.now ≡ 2 * N }
    ensures numbers { result ≡ numbers_of_words words.now }
    ensures count { length result ≡ N }
{
    let mut row = [0; N];
    for i in 0..N {
        row[i] = number_of_words(words[2 * i], words[2 * i + 1]);
    }
    row
}

/// Reads rows of numbers from their words.
pub(crate) fn read_rows<const N: usize>(words: &[i64], rows: &mut [[i128; N]])
    requires { length words.now ≡ 2 * N * length rows.old }
    ensures numbers { in_rows rows.new ≡ numbers_of_words words.now }
    ensures rows { AreRows (length rows.old) N rows.new }
{
    for i in 0..rows.len() {
        let start = 2 * N * i;
        rows[i] = read_row(&words[start..start + 2 * N]);
    }
}
