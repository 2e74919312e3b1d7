// The boxes, and the passes of those who share them.
ghost use Rattle.std.specs.Prelude.{◌≡◌, length};
ghost use Rattle.cpl_box.specs.Steps.{IsAtRest, HasLists};

use crate::view::{BoxSeat, View, Wired};
use atomic_table::Table;
use cpl_core::Wiring;
use std::alloc::Global;

/// The boxes of a wiring, which threads share by reference: a word and a list for each edge. A box's word
/// is 4k where it awaits the k-th post, 4k+1 while the poster holds it, 4k+2 while it is full, and 4k+3
/// while the taker holds it. Defined by this project.
#[derive(Drop)]
pub struct PostBox<W: Wiring> {
    pub(crate) table: Table<Vec<i64>, View, W, Wired<W>, Global>,
}

/// What one holder of the boxes knows: the wiring as data, how often it posted and took, by edge, and the
/// greatest word that it has seen there. It has no bytes, may cross threads, and holds no list. Defined by
/// this project.
#[derive(Drop)]
pub struct Pass {
    pub(crate) seat: BoxSeat,
    ghost rest: { IsAtRest seat.table_id seat },
    ghost lists: { HasLists seat.me.0.wires },
    ghost edges: { seat.table_id.slots ≡ length seat.me.0.wires.channels },
}
