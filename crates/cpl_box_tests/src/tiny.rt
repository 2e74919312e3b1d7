// One edge between two pieces: two uses, each of one number.
ghost use Rattle.std.specs.Prelude.{◌≡◌, ◌<◌, length, slice_get};

use cpl_core::{Act, Wiring};

pub(crate) struct Tiny;

impl Wiring for Tiny {
    ghost use Rattle.cpl_box_tests.specs.Tiny.{tiny_wires};

    ghost wires = { λ _. tiny_wires };

    fn edges(&self) -> u32 {
        1
    }

    fn len(&self, _edge: u32) -> usize {
        1
    }

    fn uses(&self, _edge: u32) -> u64 {
        2
    }

    fn pieces(&self) -> u32 {
        2
    }

    fn act(&self, piece: u32, m: u64) -> Option<Act> {
        if m >= 2 {
            return None;
        }
        if piece == 0 {
            Some(Act::Post { edge: 0 })
        } else {
            Some(Act::Take { edge: 0 })
        }
    }
}
