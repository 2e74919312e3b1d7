// One holder of the boxes, who posts and takes.
ghost use Rattle.std.specs.Prelude.{◌≡◌};

use crate::pass::{Pass, PostBox};
use cpl_core::Wiring;

/// The boxes with one of their passes. Defined by this project.
#[derive(Drop)]
pub struct BoxUser<'a, W: Wiring> {
    pub(crate) home: &'a PostBox<W>,
    pub(crate) pass: Pass,
    ghost same: { pass.seat.table_id ≡ home.now.table.shared.table_id },
}
