// A piece of the ocean beside the whole ocean.
ghost use Rattle.std.specs.Prelude.{ℕ};
ghost use Rattle.cpl_fixed.specs.declared.rates.Rates.{Rates};
ghost use Rattle.cpl_mosaic.specs.declared.mosaic.Mesh.{Mesh};
ghost use Rattle.cpl_layout.specs.declared.piece.Piece.{Piece};
ghost use Rattle.cpl_layout.specs.Owners.{IsPieceOf};
ghost use Rattle.cpl_sea.specs.Seas.{IsOcean};
ghost use Rattle.cpl_state.specs.Transport.{Sea};
ghost use Rattle.cpl_agree.specs.OceanSteps.{OceanAgrees};

/// A step of a piece of the ocean is the step of the whole ocean at the piece's cells and faces, on any mosaic: through folds and
/// contacts that turn, beside walls and dry cells. Interior, holes, rim and finish together are one step.
pub fn ocean_law()
    ensures { (mesh : Mesh) (layers : ℕ) (rates : Rates) (sea : Sea) (piece : Piece) → IsOcean mesh → IsPieceOf mesh.mosaic.tiles piece
        → OceanAgrees mesh layers rates sea piece }
{}
