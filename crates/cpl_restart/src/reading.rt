// The parts of a restart, each read from the front of the bytes.
ghost use Rattle.std.specs.Prelude.{◌≡◌, ◌∷◌, length, IfOk};
ghost use Rattle.cpl_restart.specs.Sections.{Reads, wrapped_sum};
ghost use Rattle.cpl_restart.specs.RestartBytes.{version_at, after_sum_in, elapsed_at, summed_at};

use crate::sections::{WORD, read_section, read_sum, wrapped_sum};
use crate::start_error::StartError;
use crate::version::Version;
use byteorder::{BigEndian, ByteOrder};
use cpl_fixed::List;
use std::alloc::Global;

/// The first eight bytes of a restart of version 1, and of version 2.
pub(crate) const FIRST_MARK: &[u8; WORD] = b"CPLRST01";

pub(crate) const SECOND_MARK: &[u8; WORD] = b"CPLRST02";

/// The version that the mark tells: `Short` where fewer than eight bytes are there, else `Magic` where they are others.
pub(crate) fn read_version(bytes: &[u8]) -> Result<(Version, &[u8]), StartError>
    ensures { Reads (λ x. (x.0, x.1.now)) result (version_at bytes.now) }
{
    if bytes.len() < WORD {
        return Err(StartError::Short);
    }
    let (front, rest) = bytes.split_at(WORD);
    if front == FIRST_MARK.as_slice() {
        return Ok((Version::First, rest));
    }
    if front == SECOND_MARK.as_slice() {
        return Ok((Version::Second, rest));
    }
    Err(StartError::Magic)
}

// The bytes behind the sum of a section, which version 1 lacks.
fn read_sum_in<'a>(
    version: Version,
    section: u32,
    first: i64,
    others: &[i64],
    bytes: &'a [u8],
) -> Result<&'a [u8], StartError>
    ensures { Reads (λ rest. rest.now) result (after_sum_in version section (first ∷ others.now) bytes.now) }
{
    match version {
        Version::First => Ok(bytes),
        Version::Second => read_sum(section, wrapped_sum(first, others), bytes),
    }
}

/// The elapsed seconds: `Short` where they or their sum aren't all there, `Sum` where the sum is another.
#[tactic(auto, unfolding(crate::specs::Numbers::number_in))]
pub(crate) fn read_elapsed(version: Version, bytes: &[u8]) -> Result<(i64, &[u8]), StartError>
    ensures { Reads (λ x. (x.0, x.1.now)) result (elapsed_at version bytes.now) }
{
    if bytes.len() < WORD {
        return Err(StartError::Short);
    }
    let (front, rest) = bytes.split_at(WORD);
    let elapsed = BigEndian::read_i64(front);
    let rest = read_sum_in(version, 0, elapsed, &[], rest)?;
    Ok((elapsed, rest))
}

/// The numbers of a section, which is followed by its sum in version 2.
#[tactic(auto, unfolding(crate::specs::RestartBytes::summed_at))]
pub(crate) fn read_summed(
    alloc: Global,
    version: Version,
    section: u32,
    count: u32,
    bytes: &[u8],
) -> Result<(List<i64>, &[u8]), StartError>
    ensures exact { Reads (λ x. (x.0, x.1.now)) result (summed_at version section count bytes.now) }
    ensures count { IfOk result (λ x. length x.0 ≡ count) }
{
    let (numbers, rest) = read_section(alloc, section, count, bytes)?;
    let rest = read_sum_in(version, section, i64::from(count), numbers.as_slice(), rest)?;
    Ok((numbers, rest))
}
