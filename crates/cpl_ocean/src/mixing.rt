// Vertical exchange.
ghost use Rattle.std.specs.Prelude.{◌≡◌, ◌*◌, ◌<◌, ◌≤◌, ℕ, length};
ghost use Rattle.cpl_field.specs.Spots.{CellAt, IsShape, IsSpot};
ghost use Rattle.cpl_transport.specs.Cells.{mixed_cell, passed_cell};
ghost use Rattle.cpl_transport.specs.Salts.{AreSmall, IsSalty};
ghost use Rattle.cpl_ocean.specs.Layers.{AreLayersOf, layer_at};
ghost use Rattle.cpl_ocean.specs.Columns.{AreLeft, column_left};
ghost use Rattle.cpl_ocean.specs.Mixed.{IsAllLeft, IsAnyCell, IsMixedBefore, IsMixedBelow, Mixes};

use crate::layer::Layer;
use cpl_field::Field;
use cpl_ice::{NOTHING, Salty};
use cpl_transport::{after_exchange, exchanged_cells, without};

// What passes down out of a cell: nothing out of the last layer.
fn passed(mix: u32, layers: &[Layer], l: usize, place: usize) -> Salty
    requires mix { (2 ≤ mix) × (mix ≤ 40) }
    requires layer { l < length layers.now }
    requires place { (k : ℕ) → k < length layers.now → place < length (layer_at layers.now k).left }
    requires left { AreLeft layers.now place }
    ensures value { result ≡ passed_cell mix (length layers.now) (column_left layers.now place) l }
    ensures small { AreSmall result }
{
    if l + 1 < layers.len() {
        exchanged_cells(mix, layers[l].left_at(place), layers[l + 1].left_at(place))
    } else {
        NOTHING
    }
}

// A cell after the layers of its column have given to their neighbours, all at once.
fn mixed_cell(mix: u32, layers: &[Layer], l: usize, place: usize) -> Salty
    requires mix { (2 ≤ mix) × (mix ≤ 40) }
    requires layer { l < length layers.now }
    requires place { (k : ℕ) → k < length layers.now → place < length (layer_at layers.now k).left }
    requires left { AreLeft layers.now place }
    ensures { result ≡ mixed_cell mix (length layers.now) (column_left layers.now place) l }
{
    let here = layers[l].left_at(place);
    let down = passed(mix, layers, l, place);
    if l == 0 {
        without(here, down)
    } else {
        after_exchange(here, passed(mix, layers, l - 1, place), down)
    }
}

// Stores the cells of row j of a layer.
fn store_row(area: &Field, mix: u32, layers: &mut [Layer], l: usize, nx: u32, j: u32)
    requires mix { (2 ≤ mix) × (mix ≤ 40) }
    requires columns { area.now.nx ≡ nx }
    requires shape { IsShape area.now.nx area.now.ny area.now.width }
    requires row { j < area.now.ny }
    requires layers { AreLayersOf area.now layers.old }
    requires layer { l < length layers.old }
    requires left { IsAllLeft area.now layers.old }
    ensures { Mixes area.now mix (IsMixedBefore l nx j) layers.old layers.new }
{
    for i in 0..nx {
        let it = mixed_cell(mix, layers, l, (j * nx + i) as usize);
        layers[l].set(i, j, it);
    }
}

// Stores the cells of a layer.
fn store_layer(area: &Field, mix: u32, layers: &mut [Layer], l: usize, nx: u32, ny: u32)
    requires mix { (2 ≤ mix) × (mix ≤ 40) }
    requires columns { area.now.nx ≡ nx }
    requires rows { area.now.ny ≡ ny }
    requires shape { IsShape area.now.nx area.now.ny area.now.width }
    requires layers { AreLayersOf area.now layers.old }
    requires layer { l < length layers.old }
    requires left { IsAllLeft area.now layers.old }
    ensures { Mixes area.now mix (IsMixedBelow l ny) layers.old layers.new }
{
    for j in 0..ny {
        store_row(area, mix, layers, l, nx, j);
    }
}

/// Stores the cells of all layers: what the vertical exchange makes of what the transport left in them.
pub(crate) fn store(area: &Field, mix: u32, layers: &mut [Layer], nx: u32, ny: u32)
    requires mix { (2 ≤ mix) × (mix ≤ 40) }
    requires columns { area.now.nx ≡ nx }
    requires rows { area.now.ny ≡ ny }
    requires shape { IsShape area.now.nx area.now.ny area.now.width }
    requires layers { AreLayersOf area.now layers.old }
    requires left { IsAllLeft area.now layers.old }
    ensures { Mixes area.now mix IsAnyCell layers.old layers.new }
{
    for l in 0..layers.len() {
        store_layer(area, mix, layers, l, nx, ny);
    }
}
