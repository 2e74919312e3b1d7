// The holes of a piece by number, and where they lie.
ghost use Rattle.std.specs.Prelude.{◌≡◌, ◌+◌, ◌<◌, ◌≤◌};
ghost use Rattle.cpl_mosaic.specs.Sides.{IsCellOf};
ghost use Rattle.cpl_layout.specs.Owners.{Holds, IsPiece, IsPieceOf, cell_in, place_in};
ghost use Rattle.cpl_strip.specs.Holes.{edge_of, edge_place};
ghost use Rattle.cpl_strip.specs.Rounds.{sides_of, nth_side, nth_hole, hole_count};

use crate::Hole;
use cpl_layout::Piece;
use cpl_mosaic::{CellId, Side};

/// How many holes a piece has.
pub(crate) fn hole_count(piece: Piece, width: u32) -> u32
    requires piece { IsPiece piece }
    requires width { width ≤ 2 }
    ensures { result ≡ hole_count width piece }
{
    width * (2 * (piece.nx + piece.ny))
}

// The k-th side along the edges of a piece: its edge, and where along it.
fn nth_side(piece: Piece, k: u32) -> (Side, u32)
    requires piece { IsPiece piece }
    requires within { k < sides_of piece }
    ensures { result ≡ nth_side piece k }
{
    let Piece { nx, ny, .. } = piece;
    if k < ny {
        (Side::W, k)
    } else if k < 2 * ny {
        (Side::E, k - ny)
    } else if k < 2 * ny + nx {
        (Side::S, k - 2 * ny)
    } else {
        (Side::N, k - 2 * ny - nx)
    }
}

/// The m-th hole of a piece: by depth, then W, E, S, N, then along the edge.
pub(crate) fn nth_hole(piece: Piece, m: u32) -> Hole
    requires piece { IsPiece piece }
    requires few { m < hole_count 2 piece }
    ensures { result ≡ nth_hole piece m }
{
    let sides = 2 * (piece.nx + piece.ny);
    let (side, at) = nth_side(piece, m % sides);
    Hole {
        side,
        at,
        depth: m / sides + 1,
    }
}

/// The k-th cell along an edge of a piece.
pub(crate) fn edge_cell(piece: Piece, side: Side, k: u32) -> CellId
    requires piece { IsPiece piece }
    requires fits { piece.i0 + piece.nx ≤ 1024 }
    requires high { piece.j0 + piece.ny ≤ 1024 }
    requires within { k < edge_of piece side }
    ensures { result ≡ cell_in piece (edge_place piece side k) }
{
    let (i, j) = match side {
        Side::W => (0, k),
        Side::E => (piece.nx - 1, k),
        Side::S => (k, 0),
        Side::N => (k, piece.ny - 1),
    };
    CellId {
        tile: piece.tile,
        i: piece.i0 + i,
        j: piece.j0 + j,
    }
}

/// The column and the row of a cell in the piece that has it.
pub(crate) fn place_in(piece: Piece, cell: CellId) -> (u32, u32)
    requires { Holds piece cell }
    ensures { result ≡ place_in piece cell }
{
    (cell.i - piece.i0, cell.j - piece.j0)
}
