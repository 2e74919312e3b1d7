// Which numbers of the sections of a state are a window's.
ghost use Rattle.std.specs.Prelude.{[], slice_index_or, ◌≡◌, ◌+◌, ◌*◌, ◌<◌, ◌≤◌, ◌^◌, ◌++◌, All, IfOk, OnOk, length, map};
ghost use Rattle.std.specs.List.{range_with_len};
ghost use Rattle.cpl_faces.specs.Faces.{AreFaces};
ghost use Rattle.cpl_xgrid.specs.Grids.{IsGrid};
ghost use Rattle.cpl_state.specs.States.{ocean_faces};
ghost use Rattle.cpl_combine.specs.Lists.{lists_of};
ghost use Rattle.cpl_combine.specs.Places.{all_places, by_cells, by_layers, faces_before, of_component, places_of, window_faces};
ghost use Rattle.cpl_combine.specs.Windows.{IsWindow, LiesIn, row_start, window_cells};

use crate::Window;
use cpl_faces::Face;
use cpl_fixed::{Component, List};
use cpl_mosaic::{CellId, Mosaic};
use cpl_xgrid::Grid;
use std::alloc::{AllocError, Global};

// Appends numbers that follow each other.
fn push_run(out: &mut Vec<u32>, from: u32, count: u32) -> Result<(), AllocError>
    requires { from + count < 2 ^ 32 }
    ensures { OnOk result (out.new.items ≡ out.old.items ++ range_with_len from count) }
{
    for n in from..from + count {
        out.push(n)?;
    }
    Ok(())
}

/// The number of the first cell in a row of a window.
pub(crate) fn row_start(mosaic: &Mosaic, window: Window, j: u32) -> u32
    requires window { LiesIn mosaic.now.tiles window }
    requires row { j < window.ny }
    ensures start { result ≡ row_start mosaic.now.tiles window j }
    ensures within { result + window.nx ≤ 2 ^ 18 }
{
    // The contract of `cells` has the limits of the tiles.
    let _cells = mosaic.cells();
    mosaic.number(CellId {
        tile: window.tile,
        i: window.i0,
        j: window.j0 + j,
    })
}

// The cells of a window.
fn cells_of(alloc: Global, mosaic: &Mosaic, window: Window) -> Result<Vec<u32>, AllocError>
    requires { LiesIn mosaic.now.tiles window }
    ensures cells { IfOk result (λ cells. cells.items ≡ window_cells mosaic.now.tiles window) }
    ensures small { IfOk result (λ cells. All (λ n. n < 2 ^ 18) cells.items) }
{
    let mut cells = Vec::new(alloc);
    for j in 0..window.ny {
        push_run(&mut cells, row_start(mosaic, window, j), window.nx)?;
    }
    Ok(cells)
}

// The places of cells where each has this many numbers in turn.
fn by_cells(alloc: Global, width: u32, cells: &[u32]) -> Result<Vec<u32>, AllocError>
    requires width { width ≤ 2 ^ 8 }
    requires cells { All (λ n. n < 2 ^ 18) cells.now }
    ensures { IfOk result (λ places. places.items ≡ by_cells width cells.now) }
{
    let mut places = Vec::with_capacity(alloc, cells.len())?;
    for n in cells {
        push_run(&mut places, *n * width, width)?;
    }
    Ok(places)
}

// Appends the places of cells or faces in the layer that begins at a place.
fn push_layer(places: &mut Vec<u32>, from: u32, items: &[u32]) -> Result<(), AllocError>
    requires from { from ≤ 2 ^ 24 }
    requires items { All (λ n. n < 2 ^ 24) items.now }
    ensures { OnOk result (places.new.items ≡ places.old.items ++ map (λ n. from + n) items.now) }
{
    for n in items {
        places.push(from + *n)?;
    }
    Ok(())
}

// The places of cells or faces in layers of which each has `count` of them.
fn by_layers(alloc: Global, layers: u32, count: u32, items: &[u32]) -> Result<Vec<u32>, AllocError>
    requires layers { layers ≤ 8 }
    requires count { count ≤ 2 ^ 20 }
    requires items { All (λ n. n < 2 ^ 24) items.now }
    ensures { IfOk result (λ places. places.items ≡ by_layers layers count items.now) }
{
    let mut places = Vec::with_capacity(alloc, layers as usize * items.len())?;
    for layer in 0..layers {
        push_layer(&mut places, layer * count, items)?;
    }
    Ok(places)
}

// How many faces have their first side at a cell before this one.
fn faces_before(mosaic: &Mosaic, faces: &[Face], n: u32) -> u32
    requires faces { AreFaces mosaic.now faces.now }
    ensures before { result ≡ faces_before faces.now n }
    ensures few { result ≤ 2 ^ 20 }
{
    // The contract of `cells` has how many there are at most.
    let _cells = mosaic.cells();
    faces.partition_point(|face| face.first < n) as u32
}

// The faces whose first sides are of a window's cells.
fn faces_of(
    alloc: Global,
    mosaic: &Mosaic,
    faces: &[Face],
    window: Window,
) -> Result<Vec<u32>, AllocError>
    requires window { LiesIn mosaic.now.tiles window }
    requires faces { AreFaces mosaic.now faces.now }
    ensures faces { IfOk result (λ places. places.items ≡ window_faces mosaic.now.tiles faces.now window) }
    ensures small { IfOk result (λ places. All (λ n. n < 2 ^ 24) places.items) }
{
    let mut places = Vec::new(alloc);
    for j in 0..window.ny {
        let start = row_start(mosaic, window, j);
        let from = faces_before(mosaic, faces, start);
        let to = faces_before(mosaic, faces, start + window.nx);
        push_run(&mut places, from, to.saturating_sub(from))?;
    }
    Ok(places)
}

/// The places of a window in the sections of a state, each list once.
#[derive(Drop)]
pub(crate) struct Places {
    /// The cells.
    pub(crate) cells: List<u32>,
    /// Where the parts of the area are.
    pub(crate) parts: List<u32>,
    /// Where the ice is.
    pub(crate) ice: List<u32>,
    /// Where the water of all layers is.
    pub(crate) water: List<u32>,
    /// The faces of all layers.
    pub(crate) faces: List<u32>,
    /// Where what flies to the ice is.
    pub(crate) to_ice: List<u32>,
    /// Where what flies to the ocean is.
    pub(crate) to_ocean: List<u32>,
}

impl Places {
    /// The places in a section of a state, counted from 0.
    pub(crate) fn of(&self, section: usize) -> &[u32]
        ensures { result.now ≡ slice_index_or (lists_of self.now) section [] }
    {
        match section {
            0..=4 => self.cells.as_slice(),
            5 => self.parts.as_slice(),
            6 | 7 => self.ice.as_slice(),
            8..=10 => self.water.as_slice(),
            11 => self.faces.as_slice(),
            12 => self.to_ice.as_slice(),
            13 => self.to_ocean.as_slice(),
            _ => &[],
        }
    }
}

// No places but those of the cells.
fn only_cells(alloc: Global, cells: Vec<u32>) -> Places
    ensures { result.cells ≡ cells.items }
{
    Places {
        cells: List::from_vec(cells),
        parts: List::from_vec(Vec::new(alloc)),
        ice: List::from_vec(Vec::new(alloc)),
        water: List::from_vec(Vec::new(alloc)),
        faces: List::from_vec(Vec::new(alloc)),
        to_ice: List::from_vec(Vec::new(alloc)),
        to_ocean: List::from_vec(Vec::new(alloc)),
    }
}

// The places of a window of the ocean.
fn ocean_places(
    alloc: Global,
    grid: &Grid,
    faces: &[Face],
    window: Window,
) -> Result<Places, AllocError>
    requires grid { IsGrid grid.now }
    requires window { LiesIn grid.now.ocean.mosaic.tiles window }
    requires faces { faces.now ≡ ocean_faces grid.now }
    requires are { AreFaces grid.now.ocean.mosaic faces.now }
    ensures { IfOk result (λ places. lists_of places ≡ all_places grid.now (window_cells grid.now.ocean.mosaic.tiles window) (window_faces grid.now.ocean.mosaic.tiles faces.now window)) }
{
    let mosaic = &grid.ocean.mosaic;
    let column = grid.column;
    let cells = cells_of(alloc, mosaic, window)?;
    let own_faces = faces_of(alloc, mosaic, faces, window)?;
    let count = mosaic.cells();
    let parts = by_cells(alloc, column.categories + 1, &cells)?;
    let ice = by_cells(alloc, column.categories, &cells)?;
    let water = by_layers(alloc, column.layers, count, &cells)?;
    let face_places = by_layers(alloc, column.layers, faces.len() as u32, &own_faces)?;
    let to_ice = by_cells(alloc, 5, &cells)?;
    let to_ocean = by_cells(alloc, 3, &cells)?;
    Ok(Places {
        cells: List::from_vec(cells),
        parts: List::from_vec(parts),
        ice: List::from_vec(ice),
        water: List::from_vec(water),
        faces: List::from_vec(face_places),
        to_ice: List::from_vec(to_ice),
        to_ocean: List::from_vec(to_ocean),
    })
}

/// The places of a window in the sections of its component. It takes memory for them.
#[tactic(auto, unfolding(crate::specs::Places::places_of))]
pub(crate) fn places_of(
    alloc: Global,
    grid: &Grid,
    faces: &[Face],
    window: Window,
) -> Result<Places, AllocError>
    requires grid { IsGrid grid.now }
    requires window { IsWindow grid.now window }
    requires faces { faces.now ≡ ocean_faces grid.now }
    requires are { AreFaces grid.now.ocean.mosaic faces.now }
    ensures { IfOk result (λ places. of_component window.component (lists_of places) ≡ places_of grid.now window) }
{
    match window.component {
        Component::Atmos => Ok(only_cells(alloc, cells_of(alloc, &grid.air.mosaic, window)?)),
        Component::Land => Ok(only_cells(alloc, cells_of(alloc, &grid.land.mosaic, window)?)),
        Component::Ice | Component::Ocean => ocean_places(alloc, grid, faces, window),
    }
}
