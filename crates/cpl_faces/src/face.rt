// A face.
use cpl_mosaic::Side;

/// A face of a mosaic: two sides that meet, of cells by their numbers in whole order. The first side comes before the second: by
/// cell, then in the order W, E, S, N. What flows from the first side to the second counts as positive. Defined by this project.
#[derive(Clone, Copy, Debug, PartialEq, Eq)]
pub struct Face {
    /// The cell of the first side.
    pub first: u32,
    pub first_side: Side,
    /// The cell of the second side, which may be the first one.
    pub second: u32,
    pub second_side: Side,
}
