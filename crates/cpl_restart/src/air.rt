// The state of the air alone, and its bytes.
ghost use Rattle.std.specs.Prelude.{◌≡◌, ◌≢◌, ◌<◌, ◌≤◌, ◌^◌, ◌++◌, ℕ, List, length, take, pos, IfOk};
ghost use Rattle.std.specs.List.{position};
ghost use Rattle.cpl_restart.specs.Numbers.{number_bytes, section_bytes, is_negative};
ghost use Rattle.cpl_restart.specs.AirBytes.{IsAir, HasSections, Reads, air_mark, air_bytes, air_of};
ghost use Rattle.cpl_state.specs.declared.air.Air.{Air as AirState};

use crate::sections::{read_end, read_mark, read_section, refuse_negative, write_section};
use crate::start_error::StartError;
use cpl_fixed::List;
use cpl_state::Air;
use std::alloc::{AllocError, Global};

/// The first eight bytes of an air state.
const AIR_MARK: &[u8; 8] = b"CPLAIR01";

#[tactic(auto, unfolding(crate::specs::AirBytes::air_of))]
fn air_sections(alloc: Global, cells: u32, bytes: &[u8]) -> Result<Air, StartError>
    ensures { Reads (λ air. air) result (air_of cells bytes.now) }
{
    let sections = read_mark(AIR_MARK, bytes)?;
    let (heat, sections) = read_section(alloc, 1, cells, sections)?;
    let (vapour, end) = read_section(alloc, 2, cells, sections)?;
    read_end(end)?;
    refuse_negative(1, heat.as_slice())?;
    refuse_negative(2, vapour.as_slice())?;
    Ok(Air { heat, vapour })
}

/// The air state of `cells` cells that `bytes` spell, or their first fault.
///
/// The bytes are the mark `CPLAIR01`, the heats (section 1) and the vapours (section 2), both in whole order. A section is
/// its count and that many numbers. Counts and numbers are eight bytes each, the highest first, numbers in two's complement.
/// The format is defined by this project.
///
/// `Short` comes for fewer than eight bytes, and else `Magic` for another mark. Then, in the order of the file, `Short`
/// comes where a count or a section's numbers aren't all there, and `Shape(section)` where a count isn't `cells`. Then
/// `Trailing` comes where bytes follow, and last `Negative(section, index)` for the first negative number. `Memory` may come
/// in place of what is behind a section whose numbers are all there.
pub fn decode_air(alloc: Global, cells: u32, bytes: &[u8]) -> Result<Air, StartError>
    // What is read is spelled so.
    ensures found { IfOk result (IsAir cells) }
    ensures spelled { IfOk result (λ air. bytes.now ≡ air_bytes air) }
    // What is spelled so is read, unless memory ran out.
    ensures only { (air : AirState) → IsAir cells air → bytes.now ≡ air_bytes air → Reads (λ air. air) result (Ok air) }
    // Which fault it is.
    ensures exact { Reads (λ air. air) result (air_of cells bytes.now) }
{
    air_sections(alloc, cells, bytes)
}

// The spelling of an air state.
fn spell_air(alloc: Global, air: &Air) -> Result<Vec<u8>, AllocError>
    ensures { IfOk result (λ bytes. bytes.items ≡ air_bytes air.now) }
{
    let numbers = air.heat.len().saturating_add(air.vapour.len());
    // The mark and two counts are as long as a number each.
    let size = numbers.saturating_add(3).saturating_mul(8);
    let mut bytes = Vec::with_capacity(alloc, size)?;
    bytes.extend_from_slice(AIR_MARK)?;
    write_section(&mut bytes, air.heat.as_slice())?;
    write_section(&mut bytes, air.vapour.as_slice())?;
    Ok(bytes)
}

/// The one spelling of an air state, as `decode_air` tells it; reading it gives the state back. It has 24 bytes, and 16 for each cell.
pub fn encode_air(alloc: Global, air: &Air) -> Result<Vec<u8>, AllocError>
    ensures spelled { IfOk result (λ bytes. bytes.items ≡ air_bytes air.now) }
    ensures back { IfOk result (λ bytes. (cells : ℕ) → cells < 2 ^ 32 → IsAir cells air.now → air_of cells bytes.items ≡ Ok air.now) }
{
    spell_air(alloc, air)
}

/// A theorem, and no work: the faults of the air's bytes, told by spellings. What is cut off, changed or added is refused by
/// the fault that says so.
pub fn faults_of_air()
    // A front of a file, and not all of it.
    ensures short { (cells n : ℕ) (air : AirState) → cells < 2 ^ 32 → HasSections cells air → n < length (air_bytes air)
        → air_of cells (take n (air_bytes air)) ≡ Err StartError.Short }
    // Fewer bytes than a mark has.
    ensures no_mark { (cells : ℕ) (bytes : List ℕ) → length bytes < 8 → air_of cells bytes ≡ Err StartError.Short }
    // A count that isn't all there.
    ensures no_first_count { (cells : ℕ) (bytes : List ℕ) → length bytes < 8
        → air_of cells (air_mark ++ bytes) ≡ Err StartError.Short }
    ensures no_second_count { (cells : ℕ) (air : AirState) (bytes : List ℕ) → cells < 2 ^ 32 → HasSections cells air → length bytes < 8
        → air_of cells (air_mark ++ (section_bytes air.heat ++ bytes)) ≡ Err StartError.Short }
    // Another mark.
    ensures magic { (cells : ℕ) (bytes : List ℕ) → 8 ≤ length bytes → take 8 bytes ≢ air_mark
        → air_of cells bytes ≡ Err StartError.Magic }
    // Another count.
    ensures first_shape { (cells n : ℕ) (rest : List ℕ) → n < 2 ^ 64 → n ≢ cells
        → air_of cells (air_mark ++ (number_bytes (pos n) ++ rest)) ≡ Err (StartError.Shape 1) }
    ensures second_shape { (cells n : ℕ) (air : AirState) (rest : List ℕ) → cells < 2 ^ 32 → HasSections cells air → n < 2 ^ 64 → n ≢ cells
        → air_of cells (air_mark ++ (section_bytes air.heat ++ (number_bytes (pos n) ++ rest))) ≡ Err (StartError.Shape 2) }
    // A file, and more.
    ensures trailing { (cells : ℕ) (air : AirState) (more : List ℕ) → cells < 2 ^ 32 → HasSections cells air → 0 < length more
        → air_of cells (air_bytes air ++ more) ≡ Err StartError.Trailing }
    // A file with a negative number.
    ensures first_negative { (cells index : ℕ) (air : AirState) → cells < 2 ^ 32 → HasSections cells air
        → position is_negative air.heat ≡ Some index
        → air_of cells (air_bytes air) ≡ Err (StartError.Negative 1 index) }
    ensures second_negative { (cells index : ℕ) (air : AirState) → cells < 2 ^ 32 → HasSections cells air
        → position is_negative air.heat ≡ None → position is_negative air.vapour ≡ Some index
        → air_of cells (air_bytes air) ≡ Err (StartError.Negative 2 index) }
{}
