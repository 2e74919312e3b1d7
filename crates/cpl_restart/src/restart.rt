// The undivided state as the bytes of a restart.
ghost use Rattle.std.specs.Prelude.{◌≡◌, ◌++◌, ◌<◌, ◌^◌, [], ◌∷◌, ◌≤◌, length, IfOk, OnOk, Ok};
ghost use Rattle.std.specs.List.{AllByRecursion, flat_map};
ghost use Rattle.cpl_fixed.specs.declared.limits.TheConstants.{MOST_START_BYTES};
ghost use Rattle.cpl_xgrid.specs.Grids.{IsGrid};
ghost use Rattle.cpl_restart.specs.Counts.{AreCounts};
ghost use Rattle.cpl_restart.specs.RestartBytes.{IsSpelled, counts_of, elapsed_bytes, sections_of, state_at, sum_bytes, summed_bytes, whole_bytes, whole_of};
ghost use Rattle.cpl_restart.specs.SecondBytes.{second_bytes};
ghost use Rattle.cpl_restart.specs.Sections.{Reads};
ghost use Rattle.cpl_state.specs.States.{HasLengths, IsWhole};
ghost use Rattle.cpl_restart.specs.declared.version.Version.TheVariants.{First, Second};
ghost use Rattle.cpl_state.specs.declared.whole.Whole.{Whole as WholeState};

use crate::counts::{Counts, counts_of, known_of};
use crate::lawful::judge;
use crate::reading::{FIRST_MARK, SECOND_MARK, read_elapsed, read_summed, read_version};
use crate::sections::{read_end, wrapped_sum, write_number, write_section};
use crate::start_error::StartError;
use crate::version::Version;
use cpl_faces::faces;
use cpl_fixed::List;
use cpl_state::Whole;
use cpl_xgrid::Grid;
use std::alloc::{AllocError, Global};

// All sections of a grid's restart as a state.
fn read_state<'a>(
    alloc: Global,
    grid: &Grid,
    counts: Counts,
    version: Version,
    elapsed: i64,
    bytes: &'a [u8],
) -> Result<(Whole, &'a [u8]), StartError>
    requires { AreCounts grid.now counts }
    ensures { Reads (λ x. (x.0, x.1.now)) result (state_at grid.now version elapsed bytes.now) }
{
    let (air_heat, bytes) = read_summed(alloc, version, 1, counts.air, bytes)?;
    let (air_vapour, bytes) = read_summed(alloc, version, 2, counts.air, bytes)?;
    let (air_sun, bytes) = read_summed(alloc, version, 3, counts.air, bytes)?;
    let (land_heat, bytes) = read_summed(alloc, version, 4, counts.land, bytes)?;
    let (land_water, bytes) = read_summed(alloc, version, 5, counts.land, bytes)?;
    let (parts, bytes) = read_summed(alloc, version, 6, counts.parts, bytes)?;
    let (ice, bytes) = read_summed(alloc, version, 7, counts.ice, bytes)?;
    let (ice_heat, bytes) = read_summed(alloc, version, 8, counts.ice, bytes)?;
    let (water, bytes) = read_summed(alloc, version, 9, counts.water, bytes)?;
    let (heat, bytes) = read_summed(alloc, version, 10, counts.water, bytes)?;
    let (salt, bytes) = read_summed(alloc, version, 11, counts.water, bytes)?;
    let (faces, bytes) = read_summed(alloc, version, 12, counts.faces, bytes)?;
    let (to_ice, bytes) = read_summed(alloc, version, 13, counts.to_ice, bytes)?;
    let (to_ocean, bytes) = read_summed(alloc, version, 14, counts.to_ocean, bytes)?;
    let whole = Whole {
        elapsed,
        air_heat,
        air_vapour,
        air_sun,
        land_heat,
        land_water,
        parts,
        ice,
        ice_heat,
        water,
        heat,
        salt,
        faces,
        to_ice,
        to_ocean,
    };
    Ok((whole, bytes))
}

// The state that bytes spell, or their first fault.
#[tactic(auto, unfolding(crate::specs::RestartBytes::whole_of))]
fn read_whole(alloc: Global, grid: &Grid, bytes: &[u8]) -> Result<Whole, StartError>
    requires grid { IsGrid grid.now }
    ensures { Reads (λ whole. whole) result (whole_of grid.now bytes.now) }
{
    let faces = faces(alloc, &grid.ocean.mosaic)?;
    let counts = counts_of(grid, &faces);
    let (version, bytes) = read_version(bytes)?;
    let (elapsed, bytes) = read_elapsed(version, bytes)?;
    let (whole, end) = read_state(alloc, grid, counts, version, elapsed, bytes)?;
    read_end(end)?;
    judge(grid, &faces, &whole)?;
    Ok(whole)
}

/// The state of a grid that `bytes` spell in either version, or their first fault.
///
/// All numbers are eight bytes, the highest first, in two's complement. Version 1 is the mark `CPLRST01`, the elapsed seconds, and
/// the fourteen lists of `Whole` in their order as sections: a section is its count and that many numbers. Version 2 begins
/// with `CPLRST02`, and the elapsed seconds and each section are followed by a sum: that of the count and the numbers, taken
/// without a sign, which wraps. The elapsed seconds are section 0, without a count. Both formats are defined by this project.
///
/// `Short` comes for fewer than eight bytes, and else `Magic` for another mark. Then, in the order of the file, `Short` comes
/// where the elapsed seconds, a count, a section's numbers or a sum aren't all there, `Shape(section)` where a count isn't the
/// grid's, and `Sum(section, stated, found)` where a sum is another. Then `Trailing` comes where bytes follow, and last the
/// first rule of lawful states that is broken: `Negative(section, index)` for the first negative number outside the faces,
/// `Parts(cell)` for the least cell with water whose parts don't sum to 65536, `Dry(section, index)` for the first number other
/// than 0 of a cell of the land or the ocean without an area, and `Wall(index)` for the first number of a face that is below
/// -2^40, above 2^40, or other than 0 where one of its cells has no area.
///
/// Its time is linear in the bytes and the cells. It takes memory for the ocean's faces, and for each section once its count is
/// judged and its numbers are all there. `Memory` may come in place of any answer.
pub fn decode(alloc: Global, grid: &Grid, bytes: &[u8]) -> Result<Whole, StartError>
    requires grid { IsGrid grid.now }
    // What is read is spelled so, in one of the two versions.
    ensures found { IfOk result (IsWhole grid.now) }
    ensures spelled { IfOk result (λ whole. IsSpelled bytes.now whole) }
    // What is spelled so is read, unless memory ran out.
    ensures only { (whole : WholeState) → IsWhole grid.now whole → IsSpelled bytes.now whole → Reads (λ whole. whole) result (Ok whole) }
    // Which fault it is.
    ensures exact { Reads (λ whole. whole) result (whole_of grid.now bytes.now) }
{
    known_of(grid);
    read_whole(alloc, grid, bytes)
}

// Appends the sum that follows these numbers, which version 1 lacks.
fn write_sum(
    out: &mut Vec<u8>,
    version: Version,
    first: i64,
    others: &[i64],
) -> Result<(), AllocError>
    ensures { OnOk result (out.new.items ≡ out.old.items ++ sum_bytes version (first ∷ others.now)) }
{
    match version {
        Version::First => Ok(()),
        Version::Second => write_number(out, wrapped_sum(first, others).cast_signed()),
    }
}

// Appends the elapsed seconds, with their sum.
fn write_elapsed(out: &mut Vec<u8>, version: Version, whole: &Whole) -> Result<(), AllocError>
    ensures { OnOk result (out.new.items ≡ out.old.items ++ elapsed_bytes version whole.now.elapsed) }
{
    write_number(out, whole.elapsed)?;
    write_sum(out, version, whole.elapsed, &[])
}

// Appends a section, with its sum.
fn write_summed(out: &mut Vec<u8>, version: Version, numbers: &List<i64>) -> Result<(), AllocError>
    ensures { OnOk result (out.new.items ≡ out.old.items ++ summed_bytes version numbers.now) }
{
    let numbers = numbers.as_slice();
    write_section(out, numbers)?;
    write_sum(out, version, numbers.len() as i64, numbers)
}

// Appends all sections of a state, with their sums.
fn write_sections(out: &mut Vec<u8>, version: Version, whole: &Whole) -> Result<(), AllocError>
    ensures { OnOk result (out.new.items ≡ out.old.items ++ flat_map (summed_bytes version) (sections_of whole.now)) }
{
    write_summed(out, version, &whole.air_heat)?;
    write_summed(out, version, &whole.air_vapour)?;
    write_summed(out, version, &whole.air_sun)?;
    write_summed(out, version, &whole.land_heat)?;
    write_summed(out, version, &whole.land_water)?;
    write_summed(out, version, &whole.parts)?;
    write_summed(out, version, &whole.ice)?;
    write_summed(out, version, &whole.ice_heat)?;
    write_summed(out, version, &whole.water)?;
    write_summed(out, version, &whole.heat)?;
    write_summed(out, version, &whole.salt)?;
    write_summed(out, version, &whole.faces)?;
    write_summed(out, version, &whole.to_ice)?;
    write_summed(out, version, &whole.to_ocean)
}

// How many bytes a state has at most: a number is eight, and each of the fifteen parts has a count or a mark, and a sum.
fn size_of(whole: &Whole) -> usize {
    let numbers = whole
        .air_heat
        .len()
        .saturating_mul(3)
        .saturating_add(whole.land_heat.len().saturating_mul(2))
        .saturating_add(whole.parts.len())
        .saturating_add(whole.ice.len().saturating_mul(2))
        .saturating_add(whole.water.len().saturating_mul(3))
        .saturating_add(whole.faces.len())
        .saturating_add(whole.to_ice.len())
        .saturating_add(whole.to_ocean.len());
    numbers.saturating_add(31).saturating_mul(8)
}

// The spelling of a state in a version.
#[tactic(auto, unfolding(crate::specs::RestartBytes::whole_bytes))]
fn spell(alloc: Global, version: Version, whole: &Whole) -> Result<Vec<u8>, AllocError>
    ensures { IfOk result (λ bytes. bytes.items ≡ whole_bytes version whole.now) }
{
    let mut out = Vec::with_capacity(alloc, size_of(whole))?;
    out.extend_from_slice(match version {
        Version::First => FIRST_MARK,
        Version::Second => SECOND_MARK,
    })?;
    write_elapsed(&mut out, version, whole)?;
    write_sections(&mut out, version, whole)?;
    Ok(out)
}

/// The spelling of a state of a grid in version 2, as `decode` tells it; reading it gives the state back. It takes memory for the
/// bytes.
pub fn encode(alloc: Global, grid: &Grid, whole: &Whole) -> Result<Vec<u8>, AllocError>
    requires grid { IsGrid grid.now }
    requires whole { IsWhole grid.now whole.now }
    ensures spelled { IfOk result (λ bytes. bytes.items ≡ whole_bytes Second whole.now) }
    ensures back { IfOk result (λ bytes. whole_of grid.now bytes.items ≡ Ok whole.now) }
{
    known_of(grid);
    spell(alloc, Version::Second, whole)
}

/// The spelling of a state of a grid in version 1.
pub fn encode_first(alloc: Global, grid: &Grid, whole: &Whole) -> Result<Vec<u8>, AllocError>
    requires grid { IsGrid grid.now }
    requires whole { IsWhole grid.now whole.now }
    ensures spelled { IfOk result (λ bytes. bytes.items ≡ whole_bytes First whole.now) }
    ensures back { IfOk result (λ bytes. whole_of grid.now bytes.items ≡ Ok whole.now) }
{
    known_of(grid);
    spell(alloc, Version::First, whole)
}

/// What `encode` writes is within the limit of a start, and reading it gives the state back: a run can go on from what another left.
/// It takes no memory.
pub fn restart_reads_back(grid: &Grid)
    requires { IsGrid grid.now }
    ensures within { (whole : WholeState) → IsWhole grid.now whole → length (second_bytes whole) ≤ MOST_START_BYTES }
    ensures back { (whole : WholeState) → IsWhole grid.now whole → whole_of grid.now (second_bytes whole) ≡ Ok whole }
{
    known_of(grid);
}
