// A coupled grid.
use crate::{Column, XGrid};
use cpl_mosaic::Mesh;

/// A coupled grid: the meshes of the air, the land and the ocean, the exchange grid between them, and what stands in each
/// cell of the ocean's mosaic. The ice has the ocean's mesh.
#[derive(Drop)]
pub struct Grid {
    pub air: Mesh,
    pub land: Mesh,
    pub ocean: Mesh,
    pub xgrid: XGrid,
    pub column: Column,
}
