// A piece of the air beside the whole air.
ghost use Rattle.cpl_mosaic.specs.declared.mosaic.Mesh.{Mesh};
ghost use Rattle.cpl_mosaic.specs.Cells.{NumbersAgree};
ghost use Rattle.cpl_mosaic.specs.Mates.{MatesAgree};
ghost use Rattle.cpl_layout.specs.declared.piece.Piece.{Piece};
ghost use Rattle.cpl_layout.specs.Owners.{IsPieceOf};
ghost use Rattle.cpl_state.specs.Diffusion.{IsAirMesh};
ghost use Rattle.cpl_agree.specs.Airs.{AirAgrees};

/// A step of the diffusion of a piece of the air is the step of the whole air at the piece's cells, on any mosaic.
pub fn air_law()
    ensures { (mesh : Mesh) (piece : Piece) → IsAirMesh mesh → MatesAgree mesh.mosaic → NumbersAgree mesh.mosaic.tiles → IsPieceOf mesh.mosaic.tiles piece
        → AirAgrees mesh piece }
{}
