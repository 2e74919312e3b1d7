// The events of a run over a wiring.

/// What may happen next in a run. A post is a claim and then its publishing, a take is a claim and then its
/// release. Defined by this project.
#[derive(Clone, Copy, Debug, PartialEq, Eq)]
pub enum Event {
    /// The edge's poster takes the box's spare list.
    ClaimPost {
        /// An edge.
        edge: u32,
    },
    /// The edge's poster puts the filled list there, and its Post is done.
    Publish {
        /// An edge.
        edge: u32,
    },
    /// The edge's taker takes the filled list.
    ClaimTake {
        /// An edge.
        edge: u32,
    },
    /// The edge's taker puts the spare list there, and its Take is done.
    Release {
        /// An edge.
        edge: u32,
    },
    /// A piece computes, and its Compute is done.
    Compute {
        /// A piece.
        piece: u32,
    },
}

/// The event may not happen now.
#[derive(Clone, Copy, Debug, PartialEq, Eq)]
pub struct Disabled {
    /// The edge's word, or for a Compute the number of actions that the piece has done.
    pub word: u64,
}
