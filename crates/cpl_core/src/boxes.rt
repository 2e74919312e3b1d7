// What a holder of boxes may do: try to post and try to take.
ghost use Rattle.std.specs.Prelude.{◌≡◌, ℕ, ◌+◌, ◌*◌, ◌<◌, List, length, slice_index, slice_set, is_ok, OnOk, OnErr, if◌then◌else◌};
ghost use Rattle.cpl_core.specs.declared.wiring.Wires.{Wires};
ghost use Rattle.cpl_core.specs.Wires.{len_of, uses_of, value_of};
ghost use Rattle.cpl_core.specs.Tries.{raised, AnswersWord, SeesWord, AreByEdge};

/// The box wasn't ready: the edge, and the word that the try found.
#[derive(Clone, Copy, Debug, PartialEq, Eq)]
pub struct NotYet {
    /// The edge of the try.
    pub edge: u32,
    /// The word that its one compare and exchange found.
    pub word: u64,
}

/// The boxes of all edges of a wiring, as one of their holders has them. A box's word is 4k where it awaits
/// the k-th post, 4k+1 while the poster holds it, 4k+2 while it is full, and 4k+3 while the taker holds it.
/// Lists move and are never copied, and no call takes memory. Defined by this project.
pub trait Boxes {
    /// The wiring as data.
    ghost wires: { Self → Wires };

    /// The name of the boxes, which all their holders share.
    ghost name: { Self → List ℕ };

    /// How often the holder has posted, by edge.
    ghost posts: { Self → List ℕ };

    /// How often the holder has taken, by edge.
    ghost takes: { Self → List ℕ };

    /// The greatest word that the holder has seen, by edge.
    ghost seen: { Self → List ℕ };

    /// How often the holder has tried.
    ghost tries: { Self → ℕ };

    /// The edge of the holder's last try.
    ghost last_edge: { Self → ℕ };

    /// The word that the holder's last try found.
    ghost last_word: { Self → ℕ };

    /// Tries to post the k-th list of an edge, of which the holder has posted k. `Ok` leaves a spare list of
    /// the same length in `buf`. `NotYet` comes exactly where the word that the try found isn't 4k, and then
    /// no box and no buffer is changed.
    fn try_post(&mut self, edge: u32, k: u64, buf: &mut Vec<i64>) -> Result<(), NotYet>
        requires edge { edge < length (wires self.old).channels }
        requires some_use { k < uses_of (wires self.old) edge }
        requires turn { slice_index (posts self.old) edge ≡ k }
        requires value { buf.old.items ≡ value_of (wires self.old) edge k }
        ensures wires { wires self.new ≡ wires self.old }
        ensures name { name self.new ≡ name self.old }
        ensures sizes { AreByEdge (wires self.new) (posts self.new) (takes self.new) (seen self.new) }
        ensures posts { posts self.new
            ≡ (if is_ok result then slice_set (posts self.old) edge (k + 1) else posts self.old) }
        ensures takes { takes self.new ≡ takes self.old }
        ensures tries { tries self.new ≡ raised (tries self.old) }
        ensures last { last_edge self.new ≡ edge }
        ensures found { AnswersWord edge (4 * k) (last_word self.new) result }
        ensures seen { SeesWord edge (4 * k + 2) (seen self.old) (seen self.new) result }
        ensures spare { OnOk result (length buf.new.items ≡ length buf.old.items) }
        ensures kept { OnErr result (buf.new.items ≡ buf.old.items) };

    /// Tries to take the k-th list of an edge, of which the holder has taken k. `Ok` leaves that list in
    /// `buf`. `NotYet` comes exactly where the word that the try found isn't 4k+2, and then no box and no
    /// buffer is changed.
    fn try_take(&mut self, edge: u32, k: u64, buf: &mut Vec<i64>) -> Result<(), NotYet>
        requires edge { edge < length (wires self.old).channels }
        requires some_use { k < uses_of (wires self.old) edge }
        requires turn { slice_index (takes self.old) edge ≡ k }
        requires room { length buf.old.items ≡ len_of (wires self.old) edge }
        ensures wires { wires self.new ≡ wires self.old }
        ensures name { name self.new ≡ name self.old }
        ensures sizes { AreByEdge (wires self.new) (posts self.new) (takes self.new) (seen self.new) }
        ensures posts { posts self.new ≡ posts self.old }
        ensures takes { takes self.new
            ≡ (if is_ok result then slice_set (takes self.old) edge (k + 1) else takes self.old) }
        ensures tries { tries self.new ≡ raised (tries self.old) }
        ensures last { last_edge self.new ≡ edge }
        ensures found { AnswersWord edge (4 * k + 2) (last_word self.new) result }
        ensures seen { SeesWord edge (4 * k + 4) (seen self.old) (seen self.new) result }
        ensures value { OnOk result (buf.new.items ≡ value_of (wires self.old) edge k) }
        ensures kept { OnErr result (buf.new.items ≡ buf.old.items) };
}
