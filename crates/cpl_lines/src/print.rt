// Spelling lines, each at the end of a text.
ghost use Rattle.std.specs.Prelude.{◌≡◌, ◌++◌, OnOk};
ghost use Rattle.cpl_lines.specs.Fields.{Number, Letter, field_text};
ghost use Rattle.cpl_lines.specs.Lines.{line_feed, line_text, row};

use itoa::Buffer;
use std::alloc::AllocError;

/// Puts a blank and a number at the end of a text.
pub fn print_number(text: &mut Vec<u8>, n: u64) -> Result<(), AllocError>
    ensures { OnOk result (text.new.items ≡ text.old.items ++ field_text (Number n)) }
{
    text.extend_from_slice(b" ")?;
    let mut buffer = Buffer::new();
    text.extend_from_slice(buffer.format(n).as_bytes())
}

/// Puts a blank and a letter at the end of a text.
pub fn print_letter(text: &mut Vec<u8>, letter: u8) -> Result<(), AllocError>
    ensures { OnOk result (text.new.items ≡ text.old.items ++ field_text (Letter letter)) }
{
    text.extend_from_slice(&[b' ', letter])
}

/// Puts a line feed at the end of a text.
pub fn print_end(text: &mut Vec<u8>) -> Result<(), AllocError>
    ensures { OnOk result (text.new.items ≡ text.old.items ++ line_feed) }
{
    text.extend_from_slice(b"\n")
}

/// Puts a line of a word and numbers at the end of a text.
pub fn print_row(text: &mut Vec<u8>, word: &[u8], numbers: &[u64]) -> Result<(), AllocError>
    ensures { OnOk result (text.new.items ≡ text.old.items ++ line_text (row word.now numbers.now)) }
{
    text.extend_from_slice(word)?;
    for n in numbers {
        print_number(text, *n)?;
    }
    print_end(text)
}
