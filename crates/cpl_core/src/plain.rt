// Boxes for one thread.
ghost use Rattle.std.specs.Prelude.{◌≡◌, ◌+◌, ◌*◌, ◌<◌, length, slice_index, slice_set, replicate, is_ok, IfOk, OnOk, OnErr, if◌then◌else◌};
ghost use Rattle.cpl_core.specs.Wires.{len_of, uses_of, value_of};
ghost use Rattle.cpl_core.specs.Tries.{raised, AnswersWord, SeesWord, AreByEdge};
ghost use Rattle.cpl_core.specs.Content.{IsContent};
ghost use Rattle.cpl_core.specs.Plain.{words_of, posts_of, takes_of};

use crate::{Boxes, NotYet, Wiring};
use std::alloc::{AllocError, Global};
use std::marker::Model;
use std::mem;

/// The boxes of a wiring for one thread, which is the poster and the taker of every edge. Between two calls
/// every list is in its box, so a box's word is even: twice the turns that it had, where a turn is a post or
/// a take. What the holder has seen of an edge is the box's word. Contracts see the wiring as data, the
/// turns by edge, the number of tries, and the edge and word of the last one. Defined by this project.
#[derive(Drop)]
pub struct PlainBoxes<'a, W: Wiring> {
    wiring: &'a W,
    turns: Vec<u64>,
    lists: Vec<Vec<i64>>,
    tries: u64,
    last_edge: u32,
    last_word: u64,
}

impl<'a, W: Wiring> Model for PlainBoxes<'a, W> {
    ghost use Rattle.std.specs.Prelude.{map};
    ghost use Rattle.cpl_core.specs.Plain.{Plain, IsPlain};

    ghost Value = { Plain };

    ghost view = { λ b. record {
      wires = W.wires b.wiring.now;
      turns = b.turns.items;
      tries = b.tries;
      last_edge = b.last_edge;
      last_word = b.last_word;
    } };

    ghost invariant = { λ b. IsPlain (W.wires b.wiring.now) b.turns.items (map (λ list. list.items) b.lists.items) };
}

impl<'a, W: Wiring> PlainBoxes<'a, W> {
    /// The boxes of this wiring, where nothing was posted, taken or tried. Fails where there is no memory.
    pub fn new(alloc: Global, wiring: &'a W) -> Result<PlainBoxes<'a, W>, AllocError>
        ensures wires { IfOk result (λ boxes. boxes.wires ≡ W.wires wiring.now) }
        ensures turns { IfOk result
            (λ boxes. boxes.turns ≡ replicate (length (W.wires wiring.now).channels) 0) }
        ensures posts { IfOk result
            (λ boxes. posts_of boxes ≡ replicate (length (W.wires wiring.now).channels) 0) }
        ensures takes { IfOk result
            (λ boxes. takes_of boxes ≡ replicate (length (W.wires wiring.now).channels) 0) }
        ensures tries { IfOk result (λ boxes. boxes.tries ≡ 0) }
        ensures last_edge { IfOk result (λ boxes. boxes.last_edge ≡ 0) }
        ensures last_word { IfOk result (λ boxes. boxes.last_word ≡ 0) }
    {
        let edges = wiring.edges();
        let mut lists = Vec::with_capacity(alloc, edges as usize)?;
        for edge in 0..edges {
            lists.push(vec![in alloc; 0i64; wiring.len(edge)]?)?;
        }
        let turns = vec![in alloc; 0u64; edges as usize]?;
        Ok(PlainBoxes {
            wiring,
            turns,
            lists,
            tries: 0,
            last_edge: 0,
            last_word: 0,
        })
    }

    // One try: where the box has had just this many turns, its list and the caller's change places.
    fn exchange(&mut self, edge: u32, turn: u64, buf: &mut Vec<i64>) -> Result<(), NotYet>
        requires edge { edge < length self.old.wires.channels }
        requires content { IsContent self.old.wires edge (2 * turn + 2) buf.old.items }
        ensures state { self.new ≡ record self.old {
          turns = (if is_ok result then slice_set self.old.turns edge (turn + 1) else self.old.turns);
          tries = raised self.old.tries;
          last_edge = edge;
          last_word = 2 * slice_index self.old.turns edge;
        } }
        ensures found { AnswersWord edge (2 * turn) (2 * slice_index self.old.turns edge) result }
        ensures content { OnOk result (IsContent self.old.wires edge (2 * turn) buf.new.items) }
        ensures kept { OnErr result (buf.new.items ≡ buf.old.items) }
    {
        let word = 2 * self.turns[edge as usize];
        self.tries = self.tries.saturating_add(1);
        self.last_edge = edge;
        self.last_word = word;
        if word != 2 * turn {
            return Err(NotYet { edge, word });
        }
        mem::swap(&mut self.lists[edge as usize], buf);
        self.turns[edge as usize] = turn + 1;
        Ok(())
    }
}

impl<'a, W: Wiring> Boxes for PlainBoxes<'a, W> {
    ghost use Rattle.std.specs.Prelude.{[]};

    ghost wires = { λ b. b.wires };

    ghost name = { λ _. [] };

    ghost posts = { posts_of };

    ghost takes = { takes_of };

    ghost seen = { words_of };

    ghost tries = { λ b. b.tries };

    ghost last_edge = { λ b. b.last_edge };

    ghost last_word = { λ b. b.last_word };

    fn try_post(&mut self, edge: u32, k: u64, buf: &mut Vec<i64>) -> Result<(), NotYet>
        requires edge { edge < length self.old.wires.channels }
        requires some_use { k < uses_of self.old.wires edge }
        requires turn { slice_index (posts_of self.old) edge ≡ k }
        requires value { buf.old.items ≡ value_of self.old.wires edge k }
        ensures wires { self.new.wires ≡ self.old.wires }
        ensures sizes { AreByEdge self.new.wires (posts_of self.new) (takes_of self.new) (words_of self.new) }
        ensures posts { posts_of self.new
            ≡ (if is_ok result then slice_set (posts_of self.old) edge (k + 1) else posts_of self.old) }
        ensures takes { takes_of self.new ≡ takes_of self.old }
        ensures tries { self.new.tries ≡ raised self.old.tries }
        ensures last { self.new.last_edge ≡ edge }
        ensures word { self.new.last_word ≡ slice_index (words_of self.old) edge }
        ensures found { AnswersWord edge (4 * k) self.new.last_word result }
        ensures seen { SeesWord edge (4 * k + 2) (words_of self.old) (words_of self.new) result }
        ensures spare { OnOk result (length buf.new.items ≡ length buf.old.items) }
        ensures kept { OnErr result (buf.new.items ≡ buf.old.items) }
    {
        // The fields tell the rules of the wiring.
        let _ = &self.turns;
        self.exchange(edge, 2 * k, buf)
    }

    fn try_take(&mut self, edge: u32, k: u64, buf: &mut Vec<i64>) -> Result<(), NotYet>
        requires edge { edge < length self.old.wires.channels }
        requires some_use { k < uses_of self.old.wires edge }
        requires turn { slice_index (takes_of self.old) edge ≡ k }
        requires room { length buf.old.items ≡ len_of self.old.wires edge }
        ensures wires { self.new.wires ≡ self.old.wires }
        ensures sizes { AreByEdge self.new.wires (posts_of self.new) (takes_of self.new) (words_of self.new) }
        ensures posts { posts_of self.new ≡ posts_of self.old }
        ensures takes { takes_of self.new
            ≡ (if is_ok result then slice_set (takes_of self.old) edge (k + 1) else takes_of self.old) }
        ensures tries { self.new.tries ≡ raised self.old.tries }
        ensures last { self.new.last_edge ≡ edge }
        ensures word { self.new.last_word ≡ slice_index (words_of self.old) edge }
        ensures found { AnswersWord edge (4 * k + 2) self.new.last_word result }
        ensures seen { SeesWord edge (4 * k + 4) (words_of self.old) (words_of self.new) result }
        ensures value { OnOk result (buf.new.items ≡ value_of self.old.wires edge k) }
        ensures kept { OnErr result (buf.new.items ≡ buf.old.items) }
    {
        // The fields tell the rules of the wiring.
        let _ = &self.turns;
        self.exchange(edge, 2 * k + 1, buf)
    }
}
