// What a window is.
use cpl_fixed::Component;

/// A block of cells of one tile of a component's mosaic: columns `i0` to `i0 + nx - 1` and rows `j0` to `j0 + ny - 1`. A
/// compute domain of a layout is one (after FMS), and so is any other block.
#[derive(Clone, Copy, Debug, PartialEq, Eq)]
pub struct Window {
    /// The air, the land, or the ocean with its ice.
    pub component: Component,
    pub tile: u32,
    pub i0: u32,
    pub nx: u32,
    pub j0: u32,
    pub ny: u32,
}
