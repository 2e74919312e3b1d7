// The pieces that a component runs in, as words say them and as its mosaic allows.
ghost use Rattle.std.specs.Prelude.{◌≡◌, IfOk, IfSome};
ghost use Rattle.cpl_top.specs.Causes.{Answers};
ghost use Rattle.cpl_top.specs.Judging.{layout};
ghost use Rattle.cpl_top.specs.Pieces.{ArePieces, pieces_of};

use crate::Status;
use cpl_fixed::{Component, LayoutError, MOST_PIECES};
use cpl_layout::Layout;
use cpl_mosaic::Mosaic;
use cpl_namelist::NamesError;
use cpl_words::positive;
use std::alloc::Global;

/// The columns and rows of pieces that each tile is cut into, 1 to 64 each.
#[derive(Clone, Copy)]
pub(crate) struct Pieces {
    pub(crate) px: u32,
    pub(crate) py: u32,
}

/// The pieces that two words are, if they are numbers from 1 to 64.
pub(crate) fn pieces_of(px: &str, py: &str) -> Option<Pieces>
    ensures value { result ≡ pieces_of px.now py.now }
    ensures within { IfSome result ArePieces }
{
    let px = positive(px, u64::from(MOST_PIECES))? as u32;
    let py = positive(py, u64::from(MOST_PIECES))? as u32;
    Some(Pieces { px, py })
}

/// A component's mosaic in these pieces, or why it can't be cut so.
pub(crate) fn judge_layout(
    alloc: Global,
    component: Component,
    mosaic: &Mosaic,
    pieces: Pieces,
) -> Result<Layout, Status>
    requires { ArePieces pieces }
    ensures answer { Answers (λ layout. tt) result (layout component mosaic.now.tiles pieces) }
    ensures tiles { IfOk result (λ layout. layout.tiles ≡ mosaic.now.tiles) }
{
    match Layout::new(alloc, mosaic, pieces.px, pieces.py) {
        Ok(layout) => Ok(layout),
        Err(LayoutError::Memory) => Err(Status::Memory),
        Err(fault) => Err(Status::Names(NamesError::Layout(component, fault))),
    }
}
