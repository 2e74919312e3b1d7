//! Mosaics: tiles of cells, joined by contacts. What lies across each side of each cell.
#![tactic(auto)]

mod cells;
mod contacts;
mod mosaic;
mod offsets;
mod parts;
mod sides;
mod table;

pub use mosaic::{Mesh, Mosaic};
pub use parts::{CellId, Contact, MosaicError, Side, Span, Tile};
pub use sides::opposite;
