// What a piece is.

/// A block of cells of one tile: columns `i0` to `i0 + nx - 1` and rows `j0` to `j0 + ny - 1`. FMS calls it a compute domain.
#[derive(Clone, Copy, Debug, PartialEq, Eq)]
pub struct Piece {
    pub tile: u32,
    pub i0: u32,
    pub nx: u32,
    pub j0: u32,
    pub ny: u32,
}
