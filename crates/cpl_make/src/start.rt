// Made starts.
ghost use Rattle.std.specs.Prelude.{◌≡◌, IfOk};
ghost use Rattle.cpl_state.specs.States.{IsWhole};
ghost use Rattle.cpl_made_grid.specs.Shares.{IsSized};
ghost use Rattle.cpl_made_grid.specs.Grids.{made_grid};
ghost use Rattle.cpl_make.specs.Starts.{made_start, zeros};

use crate::sections::{Section, made_parts, made_section};
use cpl_faces::faces;
use cpl_fixed::List;
use cpl_made_grid::Recipe;
use cpl_state::Whole;
use cpl_xgrid::Grid;
use std::alloc::{AllocError, Global};

// A list of zeros.
fn zeros(alloc: Global, count: usize) -> Result<List<i64>, AllocError>
    ensures { IfOk result (λ list. list ≡ zeros count) }
{
    Ok(List::from_vec(vec![in alloc; 0i64; count]?))
}

/// The made start of a recipe, for its grid: a lawful state with no ice, nothing in flight, and water at rest, at the namelist's date.
///
/// It is defined by this project. It takes time and memory linear in the cells, and fails only where memory is wanting.
pub fn make_start(alloc: Global, recipe: Recipe, grid: &Grid) -> Result<Whole, AllocError>
    requires size { IsSized recipe.size }
    requires grid { grid.now ≡ made_grid recipe }
    ensures start { IfOk result (λ whole. whole ≡ made_start recipe) }
    ensures lawful { IfOk result (IsWhole grid.now) }
{
    let number = recipe.number;
    let air = grid.air.area.as_slice();
    let land = grid.land.area.as_slice();
    let ocean = grid.ocean.area.as_slice();
    let cells = ocean.len();
    let faces = faces(alloc, &grid.ocean.mosaic)?.len();
    Ok(Whole {
        elapsed: 0,
        air_heat: made_section(alloc, number, Section::AirHeat, 1, air)?,
        air_vapour: made_section(alloc, number, Section::Vapour, 1, air)?,
        air_sun: made_section(alloc, number, Section::Sun, 1, air)?,
        land_heat: made_section(alloc, number, Section::LandHeat, 1, land)?,
        land_water: made_section(alloc, number, Section::LandWater, 1, land)?,
        parts: made_parts(alloc, 4, ocean)?,
        ice: zeros(alloc, 3 * cells)?,
        ice_heat: zeros(alloc, 3 * cells)?,
        water: made_section(alloc, number, Section::OceanWater, 2, ocean)?,
        heat: made_section(alloc, number, Section::OceanHeat, 2, ocean)?,
        salt: made_section(alloc, number, Section::Salt, 2, ocean)?,
        faces: zeros(alloc, 2 * faces)?,
        to_ice: zeros(alloc, 5 * cells)?,
        to_ocean: zeros(alloc, 3 * cells)?,
    })
}
