//! Layouts: the tiles of a mosaic cut into pieces, each a block of whole rows and columns.
#![tactic(auto)]

mod extents;
mod layout;
mod own;
mod piece;

pub use extents::extent;
pub use layout::Layout;
pub use own::own_law;
pub use piece::Piece;
