// What a step looks up.

/// A face: its two cells, the cell behind each of them, opposite the face, and whether there is no wall between the two. At a wall
/// behind a cell, the cell itself stands for the one behind.
#[derive(Clone, Copy)]
pub(crate) struct Link {
    pub(crate) first: u32,
    pub(crate) second: u32,
    pub(crate) behind_first: u32,
    pub(crate) behind_second: u32,
    pub(crate) is_open: bool,
}

/// Where a side of a cell has its face: it is the first side of the face with this number, or its second, or meets none.
#[derive(Clone, Copy)]
pub(crate) enum SideFace {
    Alone,
    First(u32),
    Second(u32),
}

/// The faces of a cell.
#[derive(Clone, Copy)]
pub(crate) struct CellFaces {
    pub(crate) west: SideFace,
    pub(crate) east: SideFace,
    pub(crate) south: SideFace,
    pub(crate) north: SideFace,
}
