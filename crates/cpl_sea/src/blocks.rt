// A step over all lists, block of cells by block of cells, so that memory is gone through once.
ghost use Rattle.std.specs.Prelude.{◌≡◌, ◌+◌, ◌*◌, ◌<◌, ◌≤◌, ◌^◌, ℕ, length, All, IfOk};
ghost use Rattle.cpl_fixed.specs.Amounts.{at};
ghost use Rattle.cpl_ice.specs.declared.parts.Salty.{Salty};
ghost use Rattle.cpl_transport.specs.Cells.{mixed_cell};
ghost use Rattle.cpl_transport.specs.Heights.{IsFaceNumber};
ghost use Rattle.cpl_transport.specs.Salts.{AreSmall, IsSalty};
ghost use Rattle.cpl_sea.specs.Before.{AreMixed, HaveMoved, IsLawful, cell_place, face_place, layer_numbers, left_by, left_in};
ghost use Rattle.cpl_sea.specs.Blocks.{AreReady};
ghost use Rattle.cpl_sea.specs.Passes.{AreColumns, AreSidesWithin, IsSideWithin, cell_faces_at, column_at, salty_at, top_at};

use crate::before::{Before, Block};
use crate::columns::mix_layer;
use crate::links::{CellFaces, SideFace};
use crate::moving::{leave_layer, move_layer};
use cpl_ice::Salty;
use std::alloc::{AllocError, Global};

/// The most cells of a block.
pub(crate) const BLOCK: usize = 256;

// How many faces have to move before what a side sees is known.
fn needed(face: SideFace) -> usize
    ensures within { IsSideWithin result face }
    ensures least { (most : ℕ) → IsSideWithin most face → result ≤ most }
{
    match face {
        SideFace::Alone => 0,
        SideFace::First(f) => f as usize + 1,
        SideFace::Second(f) => f as usize + 1,
    }
}

// How many faces have to move before what the sides of a cell see is known.
fn needed_by(faces: CellFaces) -> usize
    ensures within { AreSidesWithin result faces }
    ensures least { (most : ℕ) → AreSidesWithin most faces → result ≤ most }
{
    let along = needed(faces.west).max(needed(faces.east));
    let across = needed(faces.south).max(needed(faces.north));
    along.max(across)
}

// How many faces have to move before what some cells see is known, at least those that have moved.
fn ready_faces(faces: &[CellFaces], done: usize) -> usize
    ensures done { done ≤ result }
    ensures within { All (AreSidesWithin result) faces.now }
    ensures least { (most : ℕ) → done ≤ most → All (AreSidesWithin most) faces.now → result ≤ most }
{
    let mut ready = done;
    for n in 0..faces.len() {
        ready = ready.max(needed_by(faces[n]));
    }
    ready
}

// For each block of cells, how many faces have to move before what its cells see is known, at least as many as for the blocks
// before it.
pub(crate) fn blocks_ready(alloc: Global, cell_faces: &[CellFaces]) -> Result<Vec<u32>, AllocError>
    requires { All (AreSidesWithin (2 ^ 24)) cell_faces.now }
    ensures { (faces : ℕ) → All (AreSidesWithin faces) cell_faces.now → IfOk result (λ ready. AreReady faces cell_faces.now ready.items) }
{
    let count = cell_faces.len();
    let mut ready = Vec::new(alloc);
    let mut done = 0;
    let mut from = 0;
    while from < count {
        let to = count.min(from + BLOCK);
        done = ready_faces(&cell_faces[from..to], done);
        ready.push(done as u32)?;
        from = to;
    }
    Ok(ready)
}

// Moves the faces from one number up to another of all layers one step.
fn move_faces(before: &Before, from: usize, to: usize, faces: &mut [i64], flows: &mut [Salty])
    requires before { IsLawful before.now }
    requires order { from ≤ to }
    requires within { to ≤ length before.now.links.now }
    requires faces { All IsFaceNumber faces.old }
    requires face_count { length faces.old ≡ before.now.layers * length before.now.links.now }
    requires flows { length flows.old ≡ length faces.old }
    ensures moved { HaveMoved before.now before.now.layers from to faces.old faces.new flows.old flows.new }
    ensures range { All IsFaceNumber faces.new }
{
    for layer in 0..before.layers {
        move_layer(before, layer, from, to, faces, flows);
    }
}

// What the transport leaves in the cells of a block, layer by layer, once so many faces have moved.
fn leave_block(before: &Before, block: Block, done: usize, flows: &[Salty], rest: &mut [Salty])
    requires before { IsLawful before.now }
    requires block { block.from + block.width ≤ length before.now.heights.now }
    requires done { done ≤ length before.now.links.now }
    requires sides { (n : ℕ) → n < block.width → AreSidesWithin done (cell_faces_at before.now.cell_faces.now (block.from + n)) }
    requires flows { length flows.now ≡ before.now.layers * length before.now.links.now }
    requires small { (layer f : ℕ) → layer < before.now.layers → f < done → AreSmall (salty_at flows.now (face_place before.now layer f)) }
    requires rest { length rest.old ≡ before.now.layers * block.width }
    ensures { (layer n : ℕ) → layer < before.now.layers → n < block.width
        → salty_at rest.new (layer * block.width + n) ≡ left_by before.now (λ f. salty_at flows.now (face_place before.now layer f)) layer (block.from + n) }
{
    let cell_faces = &before.cell_faces[block.from..block.from + block.width];
    for layer in 0..before.layers {
        let first = layer * before.links.len();
        leave_layer(
            before,
            cell_faces,
            &flows[first..first + done],
            layer * before.heights.len() + block.from,
            rest,
            layer * block.width,
        );
    }
}

// Writes what the vertical exchange makes of a block's columns into the three lists of the cells after the step.
fn mix_block(
    before: &Before,
    block: Block,
    rest: &[Salty],
    water: &mut [i64],
    heat: &mut [i64],
    salt: &mut [i64],
)
    requires before { IsLawful before.now }
    requires block { block.from + block.width ≤ length before.now.heights.now }
    requires rest { AreColumns before.now.layers block.width (length rest.now) }
    requires salty { All IsSalty rest.now }
    requires water { length water.old ≡ length before.now.water.now }
    requires heat { length heat.old ≡ length water.old }
    requires salt { length salt.old ≡ length water.old }
    ensures mixed { (layer n : ℕ) → layer < before.now.layers → n < block.width
        → ◌≡◌ {A = Salty} (top_at water.new heat.new salt.new (cell_place before.now layer (block.from + n))) (mixed_cell before.now.mix before.now.layers (column_at block.width rest.now n) layer) }
    ensures earlier { (layer n : ℕ) → layer < before.now.layers → n < block.from
        → ◌≡◌ {A = Salty} (top_at water.new heat.new salt.new (cell_place before.now layer n)) (top_at water.old heat.old salt.old (cell_place before.now layer n)) }
{
    for layer in 0..before.layers {
        mix_layer(before, block, layer, rest, water, heat, salt);
    }
}

// A step over all lists: the three lists have the cells after it.
pub(crate) fn pass_blocks(
    before: &Before,
    faces: &mut [i64],
    flows: &mut [Salty],
    rest: &mut [Salty],
    water: &mut [i64],
    heat: &mut [i64],
    salt: &mut [i64],
)
    requires before { IsLawful before.now }
    requires faces { All IsFaceNumber faces.old }
    requires face_count { length faces.old ≡ before.now.layers * length before.now.links.now }
    requires flows { length flows.old ≡ length faces.old }
    requires rest { length rest.old ≡ before.now.layers * BLOCK }
    requires water { length water.old ≡ length before.now.water.now }
    requires heat { length heat.old ≡ length water.old }
    requires salt { length salt.old ≡ length water.old }
    requires left { (layer n : ℕ) → layer < before.now.layers → n < length before.now.heights.now → IsSalty (left_in before.now faces.old layer n) }
    ensures faces { (layer f : ℕ) → layer < before.now.layers → f < length before.now.links.now
        → at faces.new (face_place before.now layer f) ≡ layer_numbers before.now faces.old layer f }
    ensures mixed { AreMixed before.now (left_in before.now faces.old) (length before.now.heights.now) water.new heat.new salt.new }
{
    let count = before.heights.len();
    let mut done = 0;
    let mut from = 0;
    let mut turn = 0;
    while from < count {
        let width = BLOCK.min(count - from);
        let block = Block { from, width };
        let next = before.ready[turn] as usize;
        move_faces(before, done, next, faces, flows);
        let place = &mut rest[..before.layers * width];
        leave_block(before, block, next, flows, place);
        mix_block(before, block, place, water, heat, salt);
        done = next;
        from += width;
        turn += 1;
    }
    move_faces(before, done, before.links.len(), faces, flows);
}
