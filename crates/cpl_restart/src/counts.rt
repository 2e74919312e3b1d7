// How many numbers each section of a restart has.
ghost use Rattle.std.specs.Prelude.{◌≡◌, ◌≤◌, ◌*◌, ◌^◌, length};
ghost use Rattle.std.specs.List.{AllByRecursion};
ghost use Rattle.cpl_fixed.specs.declared.limits.TheConstants.{MOST_CELLS};
ghost use Rattle.cpl_mosaic.specs.Cells.{NumbersAgree};
ghost use Rattle.cpl_mosaic.specs.Mates.{MatesAgree};
ghost use Rattle.cpl_faces.specs.Faces.{AreFaces};
ghost use Rattle.cpl_xgrid.specs.Grids.{IsGrid};
ghost use Rattle.cpl_restart.specs.Counts.{AreCounts};
ghost use Rattle.cpl_restart.specs.RestartBytes.{counts_of};
ghost use Rattle.cpl_state.specs.States.{air_cells, land_cells, ocean_cells, ocean_faces};

use cpl_faces::{Face, faces_law};
use cpl_xgrid::Grid;

/// How many numbers the sections of a restart have.
#[derive(Clone, Copy)]
pub(crate) struct Counts {
    /// Each section of the air.
    pub(crate) air: u32,
    /// Each section of the land.
    pub(crate) land: u32,
    /// The parts.
    pub(crate) parts: u32,
    /// Each section of the ice's categories.
    pub(crate) ice: u32,
    /// Each section of the ocean's layers.
    pub(crate) water: u32,
    /// The faces.
    pub(crate) faces: u32,
    /// What flies to the ice.
    pub(crate) to_ice: u32,
    /// What flies to the ocean.
    pub(crate) to_ocean: u32,
}

/// The counts of a grid, by the faces of its ocean.
pub(crate) fn counts_of(grid: &Grid, faces: &[Face]) -> Counts
    requires grid { IsGrid grid.now }
    requires faces { faces.now ≡ ocean_faces grid.now }
    requires few { length faces.now ≤ 4 * ocean_cells grid.now }
    ensures { AreCounts grid.now result }
{
    let ocean = grid.ocean.mosaic.cells();
    let column = grid.column;
    Counts {
        air: grid.air.mosaic.cells(),
        land: grid.land.mosaic.cells(),
        parts: (column.categories + 1) * ocean,
        ice: column.categories * ocean,
        water: column.layers * ocean,
        faces: column.layers * faces.len() as u32,
        to_ice: 5 * ocean,
        to_ocean: 3 * ocean,
    }
}

/// What is known of a grid: no section of its restart has more than 2^24 numbers, no mosaic more than 2^18 cells, and the numbers,
/// the mates and the faces of the ocean's mosaic agree. No work is done.
pub(crate) fn known_of(grid: &Grid)
    requires { IsGrid grid.now }
    ensures small { AllByRecursion (λ n. n ≤ 2 ^ 24) (counts_of grid.now) }
    ensures cells { (air_cells grid.now ≤ MOST_CELLS) × (land_cells grid.now ≤ MOST_CELLS) × (ocean_cells grid.now ≤ MOST_CELLS) }
    ensures numbers { NumbersAgree grid.now.ocean.mosaic.tiles }
    ensures mates { MatesAgree grid.now.ocean.mosaic }
    ensures faces { AreFaces grid.now.ocean.mosaic (ocean_faces grid.now) }
{
    faces_law();
    let _air = grid.air.mosaic.cells();
    let _land = grid.land.mosaic.cells();
    let _ocean = grid.ocean.mosaic.cells();
}
