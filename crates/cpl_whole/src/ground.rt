// What a grid that keeps its rules stands on.
ghost use Rattle.cpl_state.specs.Diffusion.{IsAirMesh};
ghost use Rattle.cpl_xgrid.specs.Grids.{IsGrid};
ghost use Rattle.cpl_course.specs.Course.{IsGround};

use cpl_faces::faces_law;
use cpl_xgrid::Grid;

/// The cells, the mates and the faces of a grid agree. It takes no memory, and no more than a few steps.
pub fn ground_of(grid: &Grid)
    requires rules { IsGrid grid.now }
    requires air { IsAirMesh grid.now.air }
    ensures { IsGround grid.now }
{
    // The contracts of `cells` have the laws of numbers and of mates.
    let _airs = grid.air.mosaic.cells();
    let _lands = grid.land.mosaic.cells();
    let _oceans = grid.ocean.mosaic.cells();
    faces_law();
}
