// A wiring of two pieces and one edge of length 1 with two uses.
ghost use Rattle.cpl_core.specs.Run.{IsReached};
ghost use Rattle.cpl_core_tests.specs.Tiny.{tiny};

use cpl_core::{Act, Core, Disabled, Event, Wiring};

/// Piece 0 posts the lists 7 and 8 on edge 0 and then computes; piece 1 takes both.
#[derive(Drop)]
pub(crate) struct Tiny;

impl Wiring for Tiny {
    ghost wires = { λ _. tiny };

    fn edges(&self) -> u32 {
        1
    }

    fn len(&self, _edge: u32) -> usize {
        1
    }

    fn uses(&self, _edge: u32) -> u64 {
        2
    }

    fn pieces(&self) -> u32 {
        2
    }

    fn act(&self, piece: u32, m: u64) -> Option<Act> {
        match (piece, m) {
            (0, 0) => Some(Act::Post { edge: 0 }),
            (0, 1) => Some(Act::Post { edge: 0 }),
            (0, 2) => Some(Act::Compute),
            (1, 0) => Some(Act::Take { edge: 0 }),
            (1, 1) => Some(Act::Take { edge: 0 }),
            _ => None,
        }
    }
}

/// What a run answers to the event, if it names an edge or a piece of the wiring.
pub(crate) fn answer(core: &mut Core, wiring: &Tiny, event: Event) -> Option<Result<(), Disabled>>
    requires { IsReached tiny core.old }
    ensures { IsReached tiny core.new }
{
    let known = match event {
        Event::ClaimPost { edge }
        | Event::Publish { edge }
        | Event::ClaimTake { edge }
        | Event::Release { edge } => edge < 1,
        Event::Compute { piece } => piece < 2,
    };
    if !known {
        return None;
    }
    Some(core.step(wiring, event))
}
