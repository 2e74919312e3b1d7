// The air alone.
ghost use Rattle.std.specs.Prelude.{◌≡◌, IfOk};
ghost use Rattle.cpl_state.specs.Diffusion.{IsAirMesh, AreAmounts, cell_count, air_after, total_of};

use cpl_diffusion::{diffuse, make_room, make_ways};
use cpl_fixed::List;
use cpl_mosaic::Mesh;
use cpl_state::Air;
use std::alloc::{AllocError, Global};

/// Runs the air alone for `n` steps: heat and vapour flow between all cells whose sides meet, all sides at once, toward equal
/// amounts for each unit of area. Nothing is made or lost, and no amount falls below 0.
///
/// Both lists have one number for each cell of the mesh. The formula is defined by this project.
pub fn run_solo(alloc: Global, mesh: &Mesh, air: Air, n: u32) -> Result<Air, AllocError>
    requires mesh { IsAirMesh mesh.now }
    requires heat { AreAmounts (cell_count mesh.now) air.heat }
    requires vapour { AreAmounts (cell_count mesh.now) air.vapour }

    ensures air { IfOk result (λ last. last ≡ air_after n mesh.now air) }

    // Nothing is lost or made, and no amount leaves its range.
    ensures heat_total { IfOk result (λ last. total_of last.heat ≡ total_of air.heat) }
    ensures vapour_total { IfOk result (λ last. total_of last.vapour ≡ total_of air.vapour) }
    ensures heat { IfOk result (λ last. AreAmounts (cell_count mesh.now) last.heat) }
    ensures vapour { IfOk result (λ last. AreAmounts (cell_count mesh.now) last.vapour) }
{
    // Without a step no faces are wanted.
    if n == 0 {
        return Ok(air);
    }
    let ways = make_ways(alloc, mesh)?;
    let mut room = make_room(alloc, mesh.mosaic.cells() as usize)?;
    let Air { heat, vapour } = air;
    let mut heat = heat.into_vec();
    let mut vapour = vapour.into_vec();
    for _step in 0..n {
        diffuse(mesh, &ways, &mut heat, &mut room);
        diffuse(mesh, &ways, &mut vapour, &mut room);
    }
    Ok(Air {
        heat: List::from_vec(heat),
        vapour: List::from_vec(vapour),
    })
}
