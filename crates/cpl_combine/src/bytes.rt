// Numbers of eight bytes, the highest first, and sections of them.
ghost use Rattle.std.specs.Prelude.{◌≡◌, ◌++◌, OnOk};
ghost use Rattle.cpl_fixed.specs.Amounts.{at};
ghost use Rattle.cpl_restart.specs.Numbers.{number_bytes, numbers_bytes, section_bytes};
ghost use Rattle.cpl_combine.specs.Cuts.{gathered};

use byteorder::{BigEndian, ByteOrder};
use std::alloc::AllocError;

/// How many bytes a mark, a count or a number has.
pub(crate) const WORD: usize = 8;

/// Appends a number.
#[tactic(auto, unfolding(cpl_restart::specs::Numbers::number_bytes))]
pub(crate) fn write_number(out: &mut Vec<u8>, number: i64) -> Result<(), AllocError>
    ensures { OnOk result (out.new.items ≡ out.old.items ++ number_bytes number) }
{
    let mut word = [0u8; WORD];
    BigEndian::write_i64(&mut word, number);
    out.extend_from_slice(&word)
}

/// Appends numbers.
pub(crate) fn write_numbers(out: &mut Vec<u8>, numbers: &[i64]) -> Result<(), AllocError>
    ensures { OnOk result (out.new.items ≡ out.old.items ++ numbers_bytes numbers.now) }
{
    for number in numbers {
        write_number(out, *number)?;
    }
    Ok(())
}

// The number at a place of a list, and 0 behind its end.
fn number_of(numbers: &[i64], place: usize) -> i64
    ensures { result ≡ at numbers.now place }
{
    if place < numbers.len() {
        numbers[place]
    } else {
        0
    }
}

/// Appends a section: the numbers at these places of a list, after their count.
pub(crate) fn write_part(
    out: &mut Vec<u8>,
    numbers: &[i64],
    places: &[u32],
) -> Result<(), AllocError>
    ensures { OnOk result (out.new.items ≡ out.old.items ++ section_bytes (gathered numbers.now places.now)) }
{
    write_number(out, places.len() as i64)?;
    for place in places {
        write_number(out, number_of(numbers, *place as usize))?;
    }
    Ok(())
}
