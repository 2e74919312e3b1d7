// A step of the diffusion.
ghost use Rattle.std.specs.Prelude.{ℕ, ◌≡◌, ◌<◌, length, IfOk};
ghost use Rattle.cpl_state.specs.Diffusion.{AreAmounts, IsAirMesh, at, cell_count, diffused, total_of};
ghost use Rattle.cpl_diffusion.specs.Steps.{AreFaces, AreWays, IsRoom, IsSmall, flow_next, flow_previous, left_in};

use crate::faces::{Faces, all_faces};
use cpl_fixed::{flow_between, flow_with};
use cpl_mosaic::{Mesh, Side};
use std::alloc::{AllocError, Global};
use std::mem;

// What flows out of the n-th cell into the next.
#[inline]
fn next_flow(area: &[i64], amounts: &[i64], faces: &[Faces], n: usize) -> i64
    requires faces { AreFaces area.now faces.now }
    requires amounts { AreAmounts (length area.now) amounts.now }
    requires within { n < length area.now }
    ensures value { result ≡ flow_next area.now amounts.now faces.now n }
    ensures small { IsSmall result }
{
    let Faces { next, divisor, .. } = faces[n];
    let next = next as usize;
    flow_with(divisor, amounts[n], area[n], amounts[next], area[next])
}

// What flows out of the n-th cell into the previous one. `flows` are the flows into the next cells, of the cells before the
// n-th: where the flow between the two was taken there, it is the same the other way.
#[inline]
fn previous_flow(area: &[i64], amounts: &[i64], faces: &[Faces], flows: &[i64], n: usize) -> i64
    requires faces { AreFaces area.now faces.now }
    requires amounts { AreAmounts (length area.now) amounts.now }
    requires within { n < length area.now }
    requires count { length flows.now ≡ length area.now }
    requires flows { (k : ℕ) → k < n → at flows.now k ≡ flow_next area.now amounts.now faces.now k }
    ensures value { result ≡ flow_previous area.now amounts.now faces.now n }
    ensures small { IsSmall result }
{
    let previous = faces[n].previous as usize;
    if previous < n {
        -flows[previous]
    } else {
        let cell = previous - area.len();
        flow_between(amounts[n], area[n], amounts[cell], area[cell])
    }
}

// What is left in each cell after a step over all faces at once. The flows into the next cells are kept for these cells.
fn step(
    area: &[i64],
    east: &[Faces],
    north: &[Faces],
    before: &[i64],
    after: &mut [i64],
    eastward: &mut [i64],
    northward: &mut [i64],
)
    requires east { AreFaces area.now east.now }
    requires north { AreFaces area.now north.now }
    requires before { AreAmounts (length area.now) before.now }
    requires after { length after.old ≡ length area.now }
    requires eastward { length eastward.old ≡ length area.now }
    requires northward { length northward.old ≡ length area.now }
    ensures { (n : ℕ) → n < length area.now → at after.new n ≡ left_in area.now before.now east.now north.now n }
{
    for n in 0..before.len() {
        let to_east = next_flow(area, before, east, n);
        let to_west = previous_flow(area, before, east, eastward, n);
        let to_north = next_flow(area, before, north, n);
        let to_south = previous_flow(area, before, north, northward, n);
        eastward[n] = to_east;
        northward[n] = to_north;
        after[n] = before[n] - (to_east + to_west + to_north + to_south);
    }
}

/// The faces of all cells of a mesh, eastward and northward. They are made once for many steps.
#[derive(Drop)]
pub struct Ways {
    pub(crate) east: Vec<Faces>,
    pub(crate) north: Vec<Faces>,
}

/// The faces of a mesh of the air.
pub fn make_ways(alloc: Global, mesh: &Mesh) -> Result<Ways, AllocError>
    requires { IsAirMesh mesh.now }
    ensures { IfOk result (λ ways. AreWays mesh.now ways) }
{
    Ok(Ways {
        east: all_faces(alloc, mesh, Side::E, Side::W)?,
        north: all_faces(alloc, mesh, Side::N, Side::S)?,
    })
}

/// Room for a step: what flows eastward and northward out of each cell, and what is left in it.
#[derive(Drop)]
pub struct Room {
    pub(crate) eastward: Vec<i64>,
    pub(crate) northward: Vec<i64>,
    pub(crate) after: Vec<i64>,
}

/// Room for a step over as many cells.
pub fn make_room(alloc: Global, cells: usize) -> Result<Room, AllocError>
    ensures { IfOk result (λ room. IsRoom cells room) }
{
    Ok(Room {
        eastward: vec![in alloc; 0; cells]?,
        northward: vec![in alloc; 0; cells]?,
        after: vec![in alloc; 0; cells]?,
    })
}

/// Takes the amounts one step further, over all sides at once. It takes no memory.
pub fn diffuse(mesh: &Mesh, ways: &Ways, amounts: &mut Vec<i64>, room: &mut Room)
    requires ways { AreWays mesh.now ways.now }
    requires amounts { AreAmounts (cell_count mesh.now) amounts.old.items }
    requires room { IsRoom (cell_count mesh.now) room.old }
    ensures amounts { amounts.new.items ≡ diffused mesh.now amounts.old.items }
    ensures range { AreAmounts (cell_count mesh.now) amounts.new.items }
    ensures total { total_of amounts.new.items ≡ total_of amounts.old.items }
    ensures room { IsRoom (cell_count mesh.now) room.new }
{
    step(
        mesh.area.as_slice(),
        ways.east.as_slice(),
        ways.north.as_slice(),
        amounts.as_slice(),
        room.after.as_mut_slice(),
        room.eastward.as_mut_slice(),
        room.northward.as_mut_slice(),
    );
    mem::swap(amounts, &mut room.after);
}
