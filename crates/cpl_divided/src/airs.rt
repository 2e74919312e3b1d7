// The pieces of the air.
ghost use Rattle.std.specs.Prelude.{◌≡◌, ◌<◌, ℕ, IfOk};
ghost use Rattle.cpl_layout.specs.Pieces.{pieces_of, piece_of};
ghost use Rattle.cpl_strip.specs.Strips.{AreStrips};
ghost use Rattle.cpl_state.specs.Diffusion.{IsAirMesh};
ghost use Rattle.cpl_divided.specs.Fields.{field_at};
ghost use Rattle.cpl_divided.specs.Whole.{AreFields, HasCells, HasHoles, HaveAreas};

use crate::halos::Halos;
use crate::load::load;
use cpl_atmos::AirPiece;
use cpl_field::Field;
use cpl_layout::Layout;
use cpl_mosaic::Mesh;
use std::alloc::{AllocError, Global};

// The pieces of the air over these fields of areas.
fn airs_over(
    alloc: Global,
    layout: &Layout,
    mesh: &Mesh,
    areas: &[Field],
) -> Result<Vec<AirPiece>, AllocError>
    requires tiles { layout.now.tiles ≡ mesh.now.mosaic.tiles }
    requires mesh { IsAirMesh mesh.now }
    requires areas { AreFields layout.now areas.now }
    requires cells { (p : ℕ) → p < pieces_of layout.now → HasCells mesh.now.mosaic.tiles mesh.now.area (piece_of layout.now p) (field_at areas.now p) }
    requires holes { (p : ℕ) → p < pieces_of layout.now → HasHoles mesh.now.mosaic mesh.now.area (piece_of layout.now p) (field_at areas.now p) }
    ensures { IfOk result (λ airs. HaveAreas mesh.now layout.now airs.items) }
{
    // The contracts of `cells` and `pieces` have the laws of mates, numbers and owners.
    let _cells = mesh.mosaic.cells();
    let pieces = layout.pieces();
    let mut airs = Vec::with_capacity(alloc, pieces as usize)?;
    for p in 0..pieces {
        airs.push(AirPiece::new(alloc, &layout.piece(p), &areas[p as usize])?)?;
    }
    Ok(airs)
}

/// The pieces of the air, with the areas beyond their edges.
pub(crate) fn air_pieces(
    alloc: Global,
    layout: &Layout,
    mesh: &Mesh,
    halos: &mut Halos,
) -> Result<Vec<AirPiece>, AllocError>
    requires tiles { layout.now.tiles ≡ mesh.now.mosaic.tiles }
    requires mesh { IsAirMesh mesh.now }
    requires halos { AreStrips mesh.now.mosaic layout.now 1 halos.old }
    ensures halos { halos.new ≡ halos.old }
    ensures airs { IfOk result (λ airs. HaveAreas mesh.now layout.now airs.items) }
{
    // The contracts of `cells` and `pieces` have the laws of mates and owners.
    let _cells = mesh.mosaic.cells();
    let _pieces = layout.pieces();
    let mut areas = load(alloc, layout, &mesh.mosaic, mesh.area.as_slice())?;
    halos.fill(&mut areas);
    airs_over(alloc, layout, mesh, &areas)
}
