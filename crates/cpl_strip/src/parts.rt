// What strips are made of.
use cpl_fixed::List;
use cpl_mosaic::Side;

/// A hole of a piece: a place outside one of its edges, for the number of a cell out there. FMS calls holes a halo.
///
/// It lies `depth` steps out of `side`, beside the row `at` of the piece for W and E, and beside the column `at` for S and N.
#[derive(Clone, Copy, Debug, PartialEq, Eq)]
pub struct Hole {
    pub side: Side,
    pub at: u32,
    pub depth: u32,
}

/// What one piece gives to the holes of another, or to its own: the k-th place is of piece `from`, by column and row, and
/// the k-th hole, which takes the number of the cell there, is of piece `to`.
#[derive(Debug, Drop)]
pub struct Strip {
    pub from: u32,
    pub to: u32,
    pub places: List<(u32, u32)>,
    pub holes: List<Hole>,
}

/// The faces between the edges of two pieces, or along the edges of one: the k-th source is the first side of the k-th face,
/// of piece `from`, and the k-th target is its second side, of piece `to`. Each is a column, a row and a side.
///
/// The face's number at the target is the negative of the one at the source, since it is outward from the side.
#[derive(Debug, Drop)]
pub struct FaceStrip {
    pub from: u32,
    pub to: u32,
    pub sources: List<(u32, u32, Side)>,
    pub targets: List<(u32, u32, Side)>,
}
