// Runs that the tests share, which look before they ask.
ghost use Rattle.std.specs.Prelude.{[], ◌∷◌, All, length, IfOk};
ghost use Rattle.std.specs.Bool.{OnTrue};
ghost use Rattle.cpl_mosaic.specs.Contacts.{AreTiles};
ghost use Rattle.cpl_state.specs.Diffusion.{AreAmounts, IsAirArea, IsAirMesh, cell_count};

use cpl_divided::run_divided;
use cpl_fixed::List;
use cpl_layout::Layout;
use cpl_mosaic::{Contact, Mesh, Mosaic, Tile};
use cpl_samples::are_amounts;
use cpl_state::Air;
use cpl_whole::run_solo;
use std::alloc::{AllocError, Global};

const MOST_AREA: i64 = 1099511627776;

/// Whether a tile has 1 to 512 columns, and as many rows.
fn is_small(tile: Tile) -> bool
    ensures { OnTrue result (AreTiles (tile ∷ [])) }
{
    tile.nx > 0 && tile.nx <= 512 && tile.ny > 0 && tile.ny <= 512
}

/// Whether these are areas of the air.
fn are_areas(area: &[i64]) -> bool
    ensures { OnTrue result (All IsAirArea area.now) }
{
    for a in area {
        if *a <= 0 || *a > MOST_AREA {
            return false;
        }
    }
    true
}

// A mesh of one tile, and an air on it. Input that isn't valid counts as no memory here.
fn made(
    alloc: Global,
    shape: (u32, u32),
    contacts: &[Contact],
    area: &[i64],
    heat: &[i64],
    vapour: &[i64],
) -> Result<(Mesh, Air), AllocError>
    ensures mesh { IfOk result (λ made. IsAirMesh made.0) }
    ensures heat { IfOk result (λ made. AreAmounts (cell_count made.0) made.1.heat) }
    ensures vapour { IfOk result (λ made. AreAmounts (cell_count made.0) made.1.vapour) }
{
    let tile = Tile {
        nx: shape.0,
        ny: shape.1,
    };
    if !is_small(tile)
        || contacts.len() > 256
        || !are_areas(area)
        || !are_amounts(heat)
        || !are_amounts(vapour)
    {
        return Err(AllocError);
    }
    let Ok(mosaic) = Mosaic::new(alloc, &[tile], contacts) else {
        return Err(AllocError);
    };
    let cells = mosaic.cells() as usize;
    if area.len() != cells || heat.len() != cells || vapour.len() != cells {
        return Err(AllocError);
    }
    let mesh = Mesh {
        mosaic,
        area: List::from_vec(Vec::from_slice(alloc, area)?),
    };
    let air = Air {
        heat: List::from_vec(Vec::from_slice(alloc, heat)?),
        vapour: List::from_vec(Vec::from_slice(alloc, vapour)?),
    };
    Ok((mesh, air))
}

/// The heat and the vapour of the cells of one tile after n steps. Input that isn't valid counts as no memory here.
pub(crate) fn run(
    alloc: Global,
    shape: (u32, u32),
    contacts: &[Contact],
    area: &[i64],
    heat: &[i64],
    vapour: &[i64],
    n: u32,
) -> Result<Air, AllocError> {
    let (mesh, air) = made(alloc, shape, contacts, area, heat, vapour)?;
    run_solo(alloc, &mesh, air, n)
}

/// The same in pieces. A layout that doesn't fit counts as no memory too.
pub(crate) fn run_in_pieces(
    alloc: Global,
    pieces: (u32, u32),
    shape: (u32, u32),
    contacts: &[Contact],
    heat: &[i64],
    n: u32,
) -> Result<Air, AllocError> {
    let (px, py) = pieces;
    if px == 0 || px > 64 || py == 0 || py > 64 {
        return Err(AllocError);
    }
    let area = vec![in alloc; 1; heat.len()]?;
    let (mesh, air) = made(alloc, shape, contacts, &area, heat, heat)?;
    let Ok(layout) = Layout::new(alloc, &mesh.mosaic, px, py) else {
        return Err(AllocError);
    };
    run_divided(alloc, &mesh, &layout, air, n)
}
