// The words of a command line, whichever the command.
ghost use Rattle.std.specs.Prelude.{◌≡◌, ◌≤◌, IfSome, string_bytes};
ghost use Rattle.std.specs.List.{list_all};
ghost use Rattle.cpl_words.specs.Arguments.{is_argument, number_of, positive_of, texts};

use cpl_fixed::{decimal, is_numeral};

/// The number that a word is, of at most `most`: `0`, or 1 to 20 digits that don't begin with a zero.
pub fn number(word: &str, most: u64) -> Option<u64>
    ensures value { result ≡ number_of most word.now }
    ensures within { IfSome result (λ n. n ≤ most) }
{
    let digits = word.as_bytes();
    if is_numeral(digits, 20) {
        decimal(digits, most)
    } else {
        None
    }
}

/// The same from 1.
pub fn positive(word: &str, most: u64) -> Option<u64>
    ensures value { result ≡ positive_of most word.now }
    ensures within { IfSome result (λ n. (1 ≤ n) × (n ≤ most)) }
{
    match number(word, most)? {
        0 => None,
        n => Some(n),
    }
}

// Whether a word is neither empty nor begins with `-`.
fn is_argument(word: &str) -> bool
    ensures { result ≡ is_argument word.now }
{
    match word.as_bytes() {
        [] => false,
        [first, ..] => *first != b'-',
    }
}

// The same of each word.
fn each_is_argument(words: &[String]) -> bool
    ensures { result ≡ list_all (λ word. is_argument (string_bytes word)) words.now }
{
    words.iter().all(|word| is_argument(word.as_str()))
}

/// Whether no word is empty or begins with `-`.
pub fn are_arguments(words: &[String]) -> bool
    ensures { result ≡ list_all is_argument (texts words.now) }
{
    each_is_argument(words)
}
