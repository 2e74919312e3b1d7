// What a step of the ocean goes by, and its blocks of cells.
ghost use Rattle.std.specs.Prelude.{◌≡◌, ◌<◌, length};
ghost use Rattle.cpl_transport.specs.Salts.{IsSalty};

use crate::links::{CellFaces, Link};
use cpl_ice::Salty;

/// What a step of the ocean goes by: what was looked up of its mosaic, the heights of the columns and the water, heat and salt of the cells
/// of all layers before the step, how many layers there are, and the rates of the transport and of the vertical exchange.
#[derive(Clone, Copy)]
pub(crate) struct Before<'a> {
    pub(crate) links: &'a [Link],
    pub(crate) cell_faces: &'a [CellFaces],
    // For each block of cells, how many faces have to move before what its cells see is known.
    pub(crate) ready: &'a [u32],
    pub(crate) heights: &'a [i64],
    pub(crate) water: &'a [i64],
    pub(crate) heat: &'a [i64],
    pub(crate) salt: &'a [i64],
    pub(crate) layers: usize,
    pub(crate) slope: u32,
    pub(crate) mix: u32,
}

impl Before<'_> {
    ghost use Rattle.cpl_sea.specs.Before.{IsLawful, cell_at};

    // The cell at a place of those of all layers.
    #[inline]
    pub(crate) fn cell(&self, place: usize) -> Salty
        requires before { IsLawful self.now }
        requires within { place < length self.now.water.now }
        ensures value { result ≡ cell_at self.now place }
        ensures salty { IsSalty result }
    {
        Salty {
            water: self.water[place],
            heat: self.heat[place],
            salt: self.salt[place],
        }
    }
}

/// A block of cells: those from one number on, so many of them, in each layer.
#[derive(Clone, Copy)]
pub(crate) struct Block {
    pub(crate) from: usize,
    pub(crate) width: usize,
}
