// What an exchange grid is made of.
use cpl_mosaic::CellId;
use std::fmt;

/// The list that an exchange cell stands in: those between air and land, or between air and ocean (after FMS).
#[derive(Clone, Copy, Debug, PartialEq, Eq)]
pub enum Surface {
    Land,
    Ocean,
}

impl fmt::Display for Surface {
    fn fmt<W: fmt::Write>(&self, f: &mut fmt::Formatter<W>) -> fmt::Result {
        f.write_str(match self {
            Surface::Land => "land",
            Surface::Ocean => "ocean",
        })
    }
}

/// An exchange cell (after FMS): the overlap of a cell of the air and one of the land or the ocean. Its area is 1 to 2^40.
#[derive(Clone, Copy, Debug, PartialEq, Eq)]
pub struct XRow {
    pub air: CellId,
    /// The cell of the land or of the ocean, by the list that the row stands in.
    pub other: CellId,
    pub area: i64,
}

/// A way of runoff from a cell of the land to one of the ocean. Its weight, 1 to 2^20, is its part among the ways of that land
/// cell. Defined by this project.
#[derive(Clone, Copy, Debug, PartialEq, Eq)]
pub struct Outlet {
    pub land: CellId,
    pub ocean: CellId,
    pub weight: i64,
}

/// An exchange cell by its list and its number there, from 0.
#[derive(Clone, Copy, Debug, PartialEq, Eq)]
pub struct XRef {
    pub list: Surface,
    pub row: u32,
}

/// What stands in each cell of the ocean mosaic: 1 to 8 layers of water, and 1 to 5 categories of ice beside open water.
#[derive(Clone, Copy, Debug, PartialEq, Eq)]
pub struct Column {
    pub layers: u32,
    pub categories: u32,
}
