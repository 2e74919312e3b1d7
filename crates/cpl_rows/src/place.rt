// The place of an exchange cell in the lists of a piece.
use cpl_xgrid::Groups;

/// Where an exchange cell or an outlet stands in the lists of a purpose that a piece takes.
#[derive(Clone, Copy, Debug, PartialEq, Eq)]
pub struct RowPlace {
    /// The list, counted from 0 in the order of the piece's edges of that purpose.
    pub edge: u32,
    /// The place among what the edge carries.
    pub place: u32,
}

/// Of each cell of a piece, row by row, where its exchange cells or outlets stand. Contracts see the list of the lists.
pub type RowPlaces = Groups<RowPlace>;
