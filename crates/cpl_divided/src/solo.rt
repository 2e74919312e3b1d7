// The air alone, in pieces.
ghost use Rattle.std.specs.Prelude.{◌≡◌, IfOk};
ghost use Rattle.cpl_state.specs.Diffusion.{IsAirMesh, AreAmounts, cell_count, air_after, total_of};

use crate::airs::air_pieces;
use crate::halos::Halos;
use crate::load::{gather, load};
use crate::sweep::step_all;
use cpl_fixed::List;
use cpl_layout::Layout;
use cpl_mosaic::Mesh;
use cpl_state::Air;
use std::alloc::{AllocError, Global};

/// Runs the air alone for `n` steps, in the pieces of a layout of the mesh's mosaic. The air after them is that of the
/// undivided run, whatever the layout: heat and vapour flow between all cells whose sides meet, all sides at once.
///
/// In each step, for heat and then for vapour, the strips fill the halos, and each piece computes its cells and stores them.
/// No memory is taken in a step. Beside the state it takes that of the areas, of the divisors of faces and of the computed
/// amounts: four numbers for each cell, with those of halos and strips.
pub fn run_divided(
    alloc: Global,
    mesh: &Mesh,
    layout: &Layout,
    air: Air,
    n: u32,
) -> Result<Air, AllocError>
    requires mesh { IsAirMesh mesh.now }
    requires layout { layout.now.tiles ≡ mesh.now.mosaic.tiles }
    requires heat { AreAmounts (cell_count mesh.now) air.heat }
    requires vapour { AreAmounts (cell_count mesh.now) air.vapour }

    ensures air { IfOk result (λ last. last ≡ air_after n mesh.now air) }

    // Nothing is lost or made, and no amount leaves its range.
    ensures heat_total { IfOk result (λ last. total_of last.heat ≡ total_of air.heat) }
    ensures vapour_total { IfOk result (λ last. total_of last.vapour ≡ total_of air.vapour) }
    ensures heat { IfOk result (λ last. AreAmounts (cell_count mesh.now) last.heat) }
    ensures vapour { IfOk result (λ last. AreAmounts (cell_count mesh.now) last.vapour) }
{
    let mosaic = &mesh.mosaic;
    // The contracts of `cells` and `pieces` have the laws of mates, numbers and owners.
    let _cells = mosaic.cells();
    let _pieces = layout.pieces();
    let mut halos = Halos::new(alloc, layout, mosaic)?;
    let mut airs = air_pieces(alloc, layout, mesh, &mut halos)?;
    let Air { heat, vapour } = air;
    let mut heats = load(alloc, layout, mosaic, heat.as_slice())?;
    let mut vapours = load(alloc, layout, mosaic, vapour.as_slice())?;
    for _step in 0..n {
        halos.fill(&mut heats);
        step_all(&mut airs, &mut heats);
        halos.fill(&mut vapours);
        step_all(&mut airs, &mut vapours);
    }
    Ok(Air {
        heat: List::from_vec(gather(alloc, layout, mosaic, &heats)?),
        vapour: List::from_vec(gather(alloc, layout, mosaic, &vapours)?),
    })
}
