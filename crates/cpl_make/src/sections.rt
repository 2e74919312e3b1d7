// The sections of made starts.
ghost use Rattle.std.specs.Prelude.{◌≡◌, ◌<◌, ◌≤◌, ◌*◌, IfOk, length};
ghost use Rattle.cpl_fixed.specs.declared.limits.TheConstants.{MOST_AREA, MOST_CELLS};
ghost use Rattle.cpl_make.specs.Sections.{AreAreas, vapour_of, made_number, made_section, part_at, made_parts};

use cpl_fixed::{List, PARTS, VAPOUR_HEAT};
use cpl_made_grid::{Purpose, drawn};
use std::alloc::{AllocError, Global};

/// A section of a start whose numbers are made, each in proportion to the area of its cell.
#[derive(Clone, Copy, Debug, PartialEq, Eq)]
pub enum Section {
    /// The heat of the air, with that of its vapour.
    AirHeat,
    /// The vapour of the air.
    Vapour,
    /// The sun on the air.
    Sun,
    /// The heat of the land.
    LandHeat,
    /// The water of the land.
    LandWater,
    /// The water of the ocean, layer by layer.
    OceanWater,
    /// The heat of the ocean, layer by layer.
    OceanHeat,
    /// The salt of the ocean, layer by layer.
    Salt,
}

// The vapour of a cell of the air of this area.
fn vapour_of(number: u64, place: u32, area: u64) -> u64
    requires { area ≤ MOST_AREA }
    ensures value { result ≡ vapour_of number place area }
    ensures most { result ≤ area }
{
    area * (drawn(number, Purpose::Vapour, place) % 10) / 100
}

// The number at a place of a section, of a cell of this area.
#[tactic(auto, unfolding(crate::specs::Sections::made_number))]
fn made_number(number: u64, section: Section, place: u32, area: u64) -> u64
    requires { area ≤ MOST_AREA }
    ensures value { result ≡ made_number number section place area }
    ensures most { result ≤ 75_000 * area }
{
    match section {
        Section::AirHeat => {
            let heat = area * (2_700 + drawn(number, Purpose::AirHeat, place) % 300);
            heat + VAPOUR_HEAT as u64 * vapour_of(number, place, area)
        }
        Section::Vapour => vapour_of(number, place, area),
        Section::Sun => area * (drawn(number, Purpose::Sun, place) % 8),
        Section::LandHeat => area * (2_700 + drawn(number, Purpose::LandHeat, place) % 300),
        Section::LandWater => area * (drawn(number, Purpose::LandWater, place) % 4),
        Section::OceanWater => 50 * area,
        Section::OceanHeat => {
            50 * area * (1_420 + drawn(number, Purpose::OceanHeat, place) % 80)
        }
        Section::Salt => 50 * area / 28,
    }
}

// A section of this many layers of cells of these areas.
pub(crate) fn made_section(
    alloc: Global,
    number: u64,
    section: Section,
    layers: u32,
    areas: &[i64],
) -> Result<List<i64>, AllocError>
    requires few { layers ≤ 8 }
    requires areas { AreAreas areas.now }
    ensures { IfOk result (λ list. list ≡ made_section number section layers areas.now) }
{
    let cells = areas.len() as u32;
    let mut numbers = Vec::with_capacity(alloc, (layers * cells) as usize)?;
    for place in 0..layers * cells {
        let area = areas[(place % cells) as usize] as u64;
        numbers.push(made_number(number, section, place, area) as i64)?;
    }
    Ok(List::from_vec(numbers))
}

// The part at a place of cells of these areas, this many for each.
fn part_at(width: u32, areas: &[i64], place: u32) -> i64
    requires least { 1 ≤ width }
    requires cells { length areas.now ≤ MOST_CELLS }
    requires within { place < width * length areas.now }
    ensures { result ≡ part_at width areas.now place }
{
    if place % width == 0 && areas[(place / width) as usize] != 0 {
        PARTS
    } else {
        0
    }
}

// The parts of cells of these areas, this many for each.
pub(crate) fn made_parts(alloc: Global, width: u32, areas: &[i64]) -> Result<List<i64>, AllocError>
    requires least { 1 ≤ width }
    requires most { width ≤ 6 }
    requires cells { length areas.now ≤ MOST_CELLS }
    ensures { IfOk result (λ list. list ≡ made_parts width areas.now) }
{
    let cells = areas.len() as u32;
    let mut parts = Vec::with_capacity(alloc, (width * cells) as usize)?;
    for place in 0..width * cells {
        parts.push(part_at(width, areas, place))?;
    }
    Ok(List::from_vec(parts))
}
