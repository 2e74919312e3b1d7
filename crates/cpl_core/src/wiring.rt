// Pieces, their scripts, and the edges between them.
ghost use Rattle.std.specs.Prelude.{◌≡◌, ◌<◌, length, slice_get};
ghost use Rattle.cpl_core.specs.declared.wiring.Wires.{Wires};
ghost use Rattle.cpl_core.specs.Wires.{IsWired, len_of, uses_of, script_of};

use std::collections::LinkedList;

/// One action of a piece's script. Defined by this project.
#[derive(Clone, Copy, Debug, PartialEq, Eq)]
pub enum Act {
    /// Hands the next list of this edge over.
    Post {
        /// An edge that the piece posts.
        edge: u32,
    },
    /// Receives the next list of this edge.
    Take {
        /// An edge that the piece takes.
        edge: u32,
    },
    /// Computes on the piece's own numbers.
    Compute,
}

/// An edge as data: a one-way box between two pieces. Contracts alone speak of it; no value of it is made.
pub struct Channel {
    /// The piece that posts.
    pub from: u32,
    /// The piece that takes.
    pub to: u32,
    /// How many numbers each list has.
    pub len: usize,
    /// The list that each use carries, from use 0 on.
    pub values: LinkedList<LinkedList<i64>>,
}

/// A wiring as data: its edges, and each piece's script. Contracts alone speak of it; no value of it is made.
pub struct Wires {
    /// The edges by their numbers.
    pub channels: LinkedList<Channel>,
    /// The scripts by the numbers of their pieces.
    pub scripts: LinkedList<LinkedList<Act>>,
}

/// Pieces with their scripts, and the edges that they post and take. An edge is a one-way box between two
/// pieces; its k-th use, from 0, carries one list of a fixed length. What the uses carry is known to
/// contracts alone. Defined by this project.
pub trait Wiring {
    /// The wiring as data.
    ghost wires: { Self → Wires };

    /// The number of edges. Every wiring keeps these rules: an edge has one piece that posts and one that
    /// takes, and each script names it once for each use; it has at most 2^60 uses, and a script at most
    /// 2^62 actions.
    fn edges(&self) -> u32
        ensures count { result ≡ length (wires self.now).channels }
        ensures wired { IsWired (wires self.now) };

    /// How many numbers each list of the edge has.
    fn len(&self, edge: u32) -> usize
        requires { edge < length (wires self.now).channels }
        ensures { result ≡ len_of (wires self.now) edge };

    /// How often the edge is used.
    fn uses(&self, edge: u32) -> u64
        requires { edge < length (wires self.now).channels }
        ensures { result ≡ uses_of (wires self.now) edge };

    /// The number of pieces.
    fn pieces(&self) -> u32
        ensures { result ≡ length (wires self.now).scripts };

    /// The m-th action of the piece's script, from 0, and none exactly after its end.
    fn act(&self, piece: u32, m: u64) -> Option<Act>
        requires { piece < length (wires self.now).scripts }
        ensures { result ≡ slice_get (script_of (wires self.now) piece) m };
}
