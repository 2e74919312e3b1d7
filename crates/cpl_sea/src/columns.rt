// Columns: their heights, and what their layers exchange.
ghost use Rattle.std.specs.Prelude.{◌≡◌, ◌+◌, ◌*◌, ◌<◌, ◌≤◌, ℕ, length, All};
ghost use Rattle.cpl_fixed.specs.Amounts.{IsAmount, at};
ghost use Rattle.cpl_ice.specs.declared.parts.Salty.{Salty};
ghost use Rattle.cpl_transport.specs.Cells.{mixed_cell, passed_cell};
ghost use Rattle.cpl_transport.specs.Heights.{IsHeight};
ghost use Rattle.cpl_transport.specs.Mixing.{sum_of};
ghost use Rattle.cpl_transport.specs.Salts.{AreSmall, IsSalty};
ghost use Rattle.cpl_state.specs.Diffusion.{AreAmounts, cell_count};
ghost use Rattle.cpl_xgrid.specs.Lists.{IsArea, IsMesh};
ghost use Rattle.cpl_sea.specs.Before.{IsLawful, cell_place};
ghost use Rattle.cpl_sea.specs.Passes.{AreColumns, column_at, height_over, top_at};

use crate::before::{Before, Block};
use cpl_ice::{NOTHING, Salty};
use cpl_mosaic::Mesh;
use cpl_transport::{after_exchange, exchanged_cells, height, without};

// The water of a column.
fn column_water(water: &[i64], layers: usize, count: usize, n: usize) -> i64
    requires columns { AreColumns layers count (length water.now) }
    requires water { AreAmounts (layers * count) water.now }
    requires within { n < count }
    ensures value { result ≡ sum_of layers (λ layer. at water.now (layer * count + n)) }
    ensures amount { IsAmount result }
{
    let mut sum = 0;
    for layer in 0..layers {
        sum += water[layer * count + n];
    }
    sum
}

// The height of a column over its area, 0 where it has none.
fn height_over(area: i64, water: &[i64], layers: usize, count: usize, n: usize) -> i64
    requires area { IsArea area }
    requires columns { AreColumns layers count (length water.now) }
    requires water { AreAmounts (layers * count) water.now }
    requires within { n < count }
    ensures value { result ≡ height_over area layers count water.now n }
    ensures range { IsHeight result }
{
    if area == 0 {
        0
    } else {
        height(column_water(water, layers, count, n), area)
    }
}

// The heights of all columns.
pub(crate) fn raise(mesh: &Mesh, water: &[i64], layers: usize, heights: &mut [i64])
    requires mesh { IsMesh mesh.now }
    requires columns { AreColumns layers (cell_count mesh.now) (length water.now) }
    requires water { AreAmounts (layers * cell_count mesh.now) water.now }
    requires heights { length heights.old ≡ cell_count mesh.now }
    ensures heights { (n : ℕ) → n < cell_count mesh.now
        → at heights.new n ≡ height_over (at mesh.now.area n) layers (cell_count mesh.now) water.now n }
    ensures range { All IsHeight heights.new }
{
    let count = heights.len();
    let area = mesh.area.as_slice();
    for n in 0..count {
        heights[n] = height_over(area[n], water, layers, count, n);
    }
}

// What passes down out of a cell: nothing out of the last layer.
#[inline]
fn passed(mix: u32, layers: usize, cells: &[Salty], count: usize, layer: usize, n: usize) -> Salty
    requires mix { (2 ≤ mix) × (mix ≤ 40) }
    requires columns { AreColumns layers count (length cells.now) }
    requires cells { All IsSalty cells.now }
    requires layer { layer < layers }
    requires within { n < count }
    ensures value { result ≡ passed_cell mix layers (column_at count cells.now n) layer }
    ensures small { AreSmall result }
{
    let place = layer * count + n;
    if layer + 1 < layers {
        exchanged_cells(mix, cells[place], cells[place + count])
    } else {
        NOTHING
    }
}

// A cell after the layers of its column have given to their neighbours, all at once.
#[inline]
fn mixed_cell(
    mix: u32,
    layers: usize,
    cells: &[Salty],
    count: usize,
    layer: usize,
    n: usize,
) -> Salty
    requires mix { (2 ≤ mix) × (mix ≤ 40) }
    requires columns { AreColumns layers count (length cells.now) }
    requires cells { All IsSalty cells.now }
    requires layer { layer < layers }
    requires within { n < count }
    ensures { result ≡ mixed_cell mix layers (column_at count cells.now n) layer }
{
    let here = cells[layer * count + n];
    let down = passed(mix, layers, cells, count, layer, n);
    if layer == 0 {
        without(here, down)
    } else {
        let from_above = passed(mix, layers, cells, count, layer - 1, n);
        after_exchange(here, from_above, down)
    }
}

// Writes what the vertical exchange makes of a layer of a block's columns into the three lists of the cells after the step.
pub(crate) fn mix_layer(
    before: &Before,
    block: Block,
    layer: usize,
    rest: &[Salty],
    water: &mut [i64],
    heat: &mut [i64],
    salt: &mut [i64],
)
    requires before { IsLawful before.now }
    requires block { block.from + block.width ≤ length before.now.heights.now }
    requires layer { layer < before.now.layers }
    requires rest { AreColumns before.now.layers block.width (length rest.now) }
    requires salty { All IsSalty rest.now }
    requires water { length water.old ≡ length before.now.water.now }
    requires heat { length heat.old ≡ length water.old }
    requires salt { length salt.old ≡ length water.old }
    ensures mixed { (n : ℕ) → n < block.width
        → ◌≡◌ {A = Salty} (top_at water.new heat.new salt.new (cell_place before.now layer (block.from + n))) (mixed_cell before.now.mix before.now.layers (column_at block.width rest.now n) layer) }
    ensures earlier { (place : ℕ) → place < cell_place before.now layer block.from
        → ◌≡◌ {A = Salty} (top_at water.new heat.new salt.new place) (top_at water.old heat.old salt.old place) }
    ensures later { (place : ℕ) → cell_place before.now layer (block.from + block.width) ≤ place
        → ◌≡◌ {A = Salty} (top_at water.new heat.new salt.new place) (top_at water.old heat.old salt.old place) }
{
    let mix = before.mix;
    let layers = before.layers;
    let width = block.width;
    let begin = layer * before.heights.len() + block.from;
    for n in 0..width {
        let cell = mixed_cell(mix, layers, rest, width, layer, n);
        water[begin + n] = cell.water;
        heat[begin + n] = cell.heat;
        salt[begin + n] = cell.salt;
    }
}
