// Grids of boxes.
use cpl_fixed::List;
use cpl_xgrid::Column;

/// The greatest edge of a box.
pub const MOST_EDGE: u64 = 1 << 20;

/// A grid of boxes with whole-number edges. Cell (i, j) is the box from `x[i]` to `x[i + 1]` and from `y[j]` to `y[j + 1]`. There
/// are 1 to 1,024 columns and rows, at most 2^18 boxes together, and the edges rise from 0 or more to 2^20 at most. Defined by this
/// project.
#[derive(Drop)]
pub struct BoxMesh {
    pub x: List<i64>,
    pub y: List<i64>,
    /// Whether the western edge meets the eastern one.
    pub cyclic: bool,
    /// Whether the northern edge meets itself, folded in the middle.
    pub fold: bool,
}

/// Two grids of boxes to be overlaid, which boxes of the ocean are wet, in whole order, and what stands in each cell of the ocean.
#[derive(Drop)]
pub struct BoxPair {
    pub air: BoxMesh,
    pub ocean: BoxMesh,
    pub wet: List<bool>,
    pub column: Column,
}
