// The parts that files of numbers are made of: a mark, numbers of eight bytes, and sections, which are a count and that
// many numbers. Readers take a part from the front of the bytes, and return it with the bytes behind it.
ghost use Rattle.std.specs.Prelude.{◌≡◌, ◌≤◌, ◌^◌, ◌∷◌, ◌++◌, length, IfOk, OnOk};
ghost use Rattle.cpl_restart.specs.Numbers.{number_bytes, section_bytes};
ghost use Rattle.cpl_restart.specs.Sections.{Reads, after_mark, section_numbers, section_at, wrapped_sum, after_sum, nothing_after, no_negative};

use crate::start_error::StartError;
use byteorder::{BigEndian, ByteOrder};
use cpl_fixed::List;
use std::alloc::{AllocError, Global};

/// How many bytes a mark, a count or a number has.
pub const WORD: usize = 8;

/// The bytes behind the mark: `Short` where fewer than eight bytes are there, else `Magic` where they are others.
pub fn read_mark<'a>(mark: &[u8; WORD], bytes: &'a [u8]) -> Result<&'a [u8], StartError>
    ensures { Reads (λ rest. rest.now) result (after_mark mark.now bytes.now) }
{
    if bytes.len() < WORD {
        return Err(StartError::Short);
    }
    let (front, rest) = bytes.split_at(WORD);
    if front != mark.as_slice() {
        return Err(StartError::Magic);
    }
    Ok(rest)
}

/// The next `count` numbers: `Short` where they aren't all there. Memory is asked for once they are.
fn read_numbers(alloc: Global, count: u32, bytes: &[u8]) -> Result<(List<i64>, &[u8]), StartError>
    ensures exact { Reads (λ x. (x.0, x.1.now)) result (section_numbers count bytes.now) }
    ensures count { IfOk result (λ x. length x.0 ≡ count) }
{
    let size = WORD * count as usize;
    if bytes.len() < size {
        return Err(StartError::Short);
    }
    let (front, rest) = bytes.split_at(size);
    let mut numbers = vec![in alloc; 0i64; count as usize]?;
    BigEndian::read_i64_into(front, &mut numbers);
    Ok((List::from_vec(numbers), rest))
}

/// The numbers of the next section, which has the number `section` in its file: `Short` where its count or its numbers
/// aren't all there, `Shape` where it has another count than `count`.
pub fn read_section(
    alloc: Global,
    section: u32,
    count: u32,
    bytes: &[u8],
) -> Result<(List<i64>, &[u8]), StartError>
    ensures exact { Reads (λ x. (x.0, x.1.now)) result (section_at section count bytes.now) }
    ensures count { IfOk result (λ x. length x.0 ≡ count) }
{
    if bytes.len() < WORD {
        return Err(StartError::Short);
    }
    let (front, rest) = bytes.split_at(WORD);
    if BigEndian::read_u64(front) != u64::from(count) {
        return Err(StartError::Shape(section));
    }
    read_numbers(alloc, count, rest)
}

/// The sum of numbers, taken without a sign, which wraps: of one, and of others behind it.
pub fn wrapped_sum(first: i64, others: &[i64]) -> u64
    ensures { result ≡ wrapped_sum (first ∷ others.now) }
{
    let mut sum = first.cast_unsigned();
    for number in others {
        sum = sum.wrapping_add(number.cast_unsigned());
    }
    sum
}

/// The bytes behind the sum of a section, where that sum was found: `Short` where it isn't all there, `Sum` where it is another.
pub fn read_sum(section: u32, found: u64, bytes: &[u8]) -> Result<&[u8], StartError>
    ensures { Reads (λ rest. rest.now) result (after_sum section found bytes.now) }
{
    if bytes.len() < WORD {
        return Err(StartError::Short);
    }
    let (front, rest) = bytes.split_at(WORD);
    let stated = BigEndian::read_u64(front);
    if stated != found {
        return Err(StartError::Sum(section, stated, found));
    }
    Ok(rest)
}

/// `Trailing` where bytes are left.
pub fn read_end(bytes: &[u8]) -> Result<(), StartError>
    ensures { Reads (λ x. x) result (nothing_after bytes.now) }
{
    match bytes {
        [] => Ok(()),
        [_, ..] => Err(StartError::Trailing),
    }
}

/// `Negative` with the first negative number of a section.
pub fn refuse_negative(section: u32, numbers: &[i64]) -> Result<(), StartError>
    requires { length numbers.now ≤ 2 ^ 32 }
    ensures { Reads (λ x. x) result (no_negative section numbers.now) }
{
    match numbers.iter().position(|x| *x < 0) {
        None => Ok(()),
        Some(index) => Err(StartError::Negative(section, index as u32)),
    }
}

/// Appends a number.
#[tactic(auto, unfolding(crate::specs::Numbers::number_bytes))]
pub fn write_number(out: &mut Vec<u8>, number: i64) -> Result<(), AllocError>
    ensures { OnOk result (out.new.items ≡ out.old.items ++ number_bytes number) }
{
    let mut word = [0u8; WORD];
    BigEndian::write_i64(&mut word, number);
    out.extend_from_slice(&word)
}

/// Appends a section: the count of the numbers, and each of them.
pub fn write_section(out: &mut Vec<u8>, numbers: &[i64]) -> Result<(), AllocError>
    ensures { OnOk result (out.new.items ≡ out.old.items ++ section_bytes numbers.now) }
{
    write_number(out, numbers.len() as i64)?;
    for number in numbers {
        write_number(out, *number)?;
    }
    Ok(())
}
