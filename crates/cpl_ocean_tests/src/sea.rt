// Runs of an ocean over whole lists, which the tests share.
ghost use Rattle.std.specs.Prelude.{◌≡◌, ◌⊎◌, ◌*◌, ◌≤◌, pos, length, All, IfOk};
ghost use Rattle.std.specs.Bool.{OnTrue};
ghost use Rattle.cpl_state.specs.CouplingStep.{sea_of};
ghost use Rattle.cpl_state.specs.Diffusion.{AreAmounts};
ghost use Rattle.cpl_state.specs.States.{layers, ocean_cells};
ghost use Rattle.cpl_sea.specs.Rooms.{IsSeaRoom};
ghost use Rattle.cpl_sea.specs.Seas.{AreNumbers, IsSea};
ghost use Rattle.cpl_transport.specs.Heights.{IsFaceNumber};
ghost use Rattle.cpl_xgrid.specs.Lists.{IsColumn, IsMesh};
ghost use Rattle.cpl_ocean_tests.specs.Small.{IsWet};

use crate::shapes::{Shape, grid};
use cpl_faces::faces;
use cpl_fixed::List;
use cpl_samples::{are_amounts, example_rates};
use cpl_sea::{SeaRoom, sea_law};
use cpl_state::Whole;
use cpl_xgrid::Grid;
use std::alloc::{AllocError, Global};

/// The greatest number of a face.
const MOST_FACE: i64 = 1 << 40;

/// Water, heat and salt of an ocean's cells, layer after layer.
pub(crate) type Sea = [&'static [i64]; 3];

// These numbers as a list, where they are amounts, so many for each cell of the ocean. Others count as no memory.
fn amounts(
    alloc: Global,
    grid: &Grid,
    each: usize,
    numbers: &[i64],
) -> Result<List<i64>, AllocError>
    requires { each ≤ 8 }
    ensures { IfOk result (AreAmounts (each * ocean_cells grid.now)) }
{
    let cells = grid.ocean.mosaic.cells() as usize;
    if numbers.len() != each * cells || !are_amounts(numbers) {
        return Err(AllocError);
    }
    Ok(List::from_vec(Vec::from_slice(alloc, numbers)?))
}

// Whether each of these cells has an area.
fn are_wet(area: &[i64]) -> bool
    ensures { OnTrue result (All IsWet area.now) }
{
    area.iter().all(|a| *a > 0)
}

// A number that every face may have: this one, or 0 where a face may be a wall.
fn face_number(area: &[i64], number: i64) -> i64
    ensures range { IsFaceNumber result }
    ensures wet { (result ≡ pos 0) ⊎ All IsWet area.now }
{
    if are_wet(area) {
        number.max(-MOST_FACE).min(MOST_FACE)
    } else {
        0
    }
}

// The numbers of all layers' faces, each the same.
fn numbers(alloc: Global, grid: &Grid, number: i64) -> Result<List<i64>, AllocError>
    requires ocean { IsMesh grid.now.ocean }
    requires column { IsColumn grid.now.column }
    ensures { IfOk result (AreNumbers grid.now.ocean (layers grid.now)) }
{
    // The contract of `cells` has the laws of numbers and mates.
    let _cells = grid.ocean.mosaic.cells();
    let number = face_number(grid.ocean.area.as_slice(), number);
    let faces = faces(alloc, &grid.ocean.mosaic)?;
    let count = grid.column.layers as usize * faces.len();
    Ok(List::from_vec(vec![in alloc; number; count]?))
}

// No flight to the ice.
fn no_flight(alloc: Global, grid: &Grid) -> Result<List<i64>, AllocError>
    ensures { IfOk result (λ flight. length flight ≡ 5 * ocean_cells grid.now) }
{
    let cells = grid.ocean.mosaic.cells() as usize;
    Ok(List::from_vec(vec![in alloc; 0; 5 * cells]?))
}

// No numbers.
fn none(alloc: Global) -> List<i64> {
    List::from_vec(Vec::new(alloc))
}

// A state with this ocean and this flight alone.
fn state_of(
    alloc: Global,
    water: List<i64>,
    heat: List<i64>,
    salt: List<i64>,
    faces: List<i64>,
    to_ice: List<i64>,
) -> Whole
    ensures sea { sea_of result ≡ record { water = water; heat = heat; salt = salt; faces = faces } }
    ensures to_ice { result.to_ice ≡ to_ice }
{
    Whole {
        elapsed: 0,
        air_heat: none(alloc),
        air_vapour: none(alloc),
        air_sun: none(alloc),
        land_heat: none(alloc),
        land_water: none(alloc),
        parts: none(alloc),
        ice: none(alloc),
        ice_heat: none(alloc),
        water,
        heat,
        salt,
        faces,
        to_ice,
        to_ocean: none(alloc),
    }
}

// A state with this ocean alone, whose faces all have this number.
fn state(alloc: Global, grid: &Grid, sea: Sea, number: i64) -> Result<Whole, AllocError>
    requires ocean { IsMesh grid.now.ocean }
    requires column { IsColumn grid.now.column }
    ensures sea { IfOk result (λ whole. IsSea grid.now.ocean (layers grid.now) (sea_of whole)) }
    ensures to_ice { IfOk result (λ whole. length whole.to_ice ≡ 5 * ocean_cells grid.now) }
{
    let layers = grid.column.layers as usize;
    let [water, heat, salt] = sea;
    let water = amounts(alloc, grid, layers, water)?;
    let heat = amounts(alloc, grid, layers, heat)?;
    let salt = amounts(alloc, grid, layers, salt)?;
    let faces = numbers(alloc, grid, number)?;
    let to_ice = no_flight(alloc, grid)?;
    Ok(state_of(alloc, water, heat, salt, faces, to_ice))
}

// Takes the ocean of a state so many steps further, and then cuts its top layer, where the coupling step ends.
fn go(grid: &Grid, steps: u32, ends: bool, whole: &mut Whole, room: &mut SeaRoom)
    requires room { IsSeaRoom grid.now.ocean (layers grid.now) room.old }
    requires sea { IsSea grid.now.ocean (layers grid.now) (sea_of whole.old) }
    requires to_ice { length whole.old.to_ice ≡ 5 * ocean_cells grid.now }
{
    sea_law();
    for _n in 0..steps {
        room.step(grid, &example_rates(), whole);
    }
    if ends {
        room.cut(grid, whole);
    }
}

/// What a run leaves: water, heat and salt of the ocean's cells, the numbers of its faces, and the flight to the ice.
#[derive(Drop)]
pub(crate) struct Found {
    pub(crate) water: List<i64>,
    pub(crate) heat: List<i64>,
    pub(crate) salt: List<i64>,
    pub(crate) faces: List<i64>,
    pub(crate) to_ice: List<i64>,
}

fn left_in(whole: Whole) -> Found {
    Found {
        water: whole.water,
        heat: whole.heat,
        salt: whole.salt,
        faces: whole.faces,
        to_ice: whole.to_ice,
    }
}

/// What an ocean has, whose faces all had this number, after so many steps, and after the cut where a coupling step ends.
pub(crate) fn after(
    alloc: Global,
    shape: &Shape,
    (sea, number): (Sea, i64),
    steps: u32,
    ends: bool,
) -> Result<Found, AllocError> {
    let grid = grid(alloc, shape)?;
    let mut whole = state(alloc, &grid, sea, number)?;
    let mut room = SeaRoom::new(alloc, &grid)?;
    go(&grid, steps, ends, &mut whole, &mut room);
    Ok(left_in(whole))
}
