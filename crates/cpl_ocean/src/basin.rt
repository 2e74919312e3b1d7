// The columns of a piece.
use cpl_field::Field;

/// The areas of a piece's cells and holes, and the heights of their columns.
#[derive(Drop)]
pub(crate) struct Basin {
    pub(crate) nx: u32,
    pub(crate) ny: u32,
    pub(crate) area: Field,
    pub(crate) heights: Field,
}
