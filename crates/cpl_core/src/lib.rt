//! The wiring of pieces and edges, boxes that carry lists along edges, and the events of a run over them.
#![tactic(auto)]

mod boxes;
mod events;
mod laws;
mod plain;
mod run;
mod wiring;

pub use boxes::{Boxes, NotYet};
pub use events::{Disabled, Event};
pub use laws::{ends_law, word_law};
pub use plain::PlainBoxes;
pub use run::Core;
pub use wiring::{Act, Channel, Wires, Wiring};
