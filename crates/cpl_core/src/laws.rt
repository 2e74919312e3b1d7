// The laws of runs over any wiring.
ghost use Rattle.std.specs.Prelude.{◌≡◌, ◌≢◌, ℕ, ◌+◌, ◌<◌, IsTrue, List, [], ◌∷◌, length, Some, None};
ghost use Rattle.cpl_core.specs.declared.events.Event.{Event};
ghost use Rattle.cpl_core.specs.Run.{State, is_enabled, step, run, Leads, IsEnd, KeepsWord};

use crate::Wiring;

/// After every list of events from the start, each enabled in its turn, an edge's word tells how often it
/// was posted and taken: `floor((word+2)/4)` and `floor(word/4)`. The word is at most four times the uses.
/// At a word 4k+1 the next action of the edge's poster is that Post, and at 4k+3 the next action of its
/// taker is that Take. It takes no memory. Defined by this project.
pub fn word_law<W: Wiring>(wiring: &W)
    ensures { (events : List Event) (state : State) (edge : ℕ) → Leads (W.wires wiring.now) events state
        → edge < length (W.wires wiring.now).channels → KeepsWord (W.wires wiring.now) state edge }
{
    let _ = wiring.edges();
}

/// No run gets stuck where some run ends. Of two different enabled events each stays enabled after the
/// other, and both orders lead to the same state. So where some list of enabled events from the start leads
/// to the end of every script, every list of enabled events from the start can be continued to there, and
/// every list that can't be continued has arrived there, in the same number of events. It takes no memory.
/// Defined by this project.
pub fn ends_law<W: Wiring>(wiring: &W)
    ensures orders { (events : List Event) (state : State) (first second : Event)
        → Leads (W.wires wiring.now) events state
        → first ≢ second
        → IsTrue (is_enabled (W.wires wiring.now) state first)
        → IsTrue (is_enabled (W.wires wiring.now) state second)
        → ((after : State)
        × (run (W.wires wiring.now) state (first ∷ second ∷ []) ≡ Some after)
        × (run (W.wires wiring.now) state (second ∷ first ∷ []) ≡ Some after)) }
    ensures continues { (all events : List Event) (end state : State)
        → Leads (W.wires wiring.now) all end
        → IsEnd (W.wires wiring.now) end
        → Leads (W.wires wiring.now) events state
        → ((rest : List Event)
        × (run (W.wires wiring.now) state rest ≡ Some end)
        × (length events + length rest ≡ length all)) }
    ensures arrives { (all events : List Event) (end state : State)
        → Leads (W.wires wiring.now) all end
        → IsEnd (W.wires wiring.now) end
        → Leads (W.wires wiring.now) events state
        → ((event : Event) → step (W.wires wiring.now) state event ≡ None)
        → ((state ≡ end) × (length events ≡ length all)) }
{
    let _ = wiring.edges();
}
