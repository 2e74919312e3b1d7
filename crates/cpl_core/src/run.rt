// A run over a wiring, event by event.
ghost use Rattle.std.specs.Prelude.{◌≡◌, ◌≢◌, ◌↔◌, ℕ, ◌^◌, ◌<◌, length, Some, None, IsTrue, IfSome, IfNone, IfOk, OnOk, IfErr, OnErr};
ghost use Rattle.cpl_core.specs.Run.{start, step, word_of, done_of, next_of, actor_of, happens_by, number_at, IsReached, IsInRange};
ghost use Rattle.cpl_core.specs.Wires.{IsWired};
ghost use Rattle.cpl_core.specs.Ready.{act_of, IsPhase, HasPlace};

use crate::{Act, Disabled, Event, Wiring};
use std::alloc::{AllocError, Global};
use std::marker::Model;

/// A run over a wiring in words and numbers of actions: a word for each edge, and for each piece how many
/// actions it has done. Defined by this project.
#[derive(Drop)]
pub struct Core {
    words: Vec<u64>,
    done: Vec<u64>,
}

impl Model for Core {
    ghost use Rattle.cpl_core.specs.Run.{State};

    ghost Value = { State };

    ghost view = { λ core. record { words = core.words.items; done = core.done.items } };
}

impl Core {
    /// The start of every run over the wiring. Fails where there is no memory.
    pub fn new<W: Wiring>(alloc: Global, wiring: &W) -> Result<Core, AllocError>
        ensures { IfOk result (λ core. core ≡ start (W.wires wiring.now)) }
    {
        let words = vec![in alloc; 0u64; wiring.edges() as usize]?;
        let done = vec![in alloc; 0u64; wiring.pieces() as usize]?;
        Ok(Core { words, done })
    }

    /// Lets the event happen, over the wiring that the run was started with. `Disabled` comes exactly where
    /// the event isn't enabled, and then nothing is changed. It takes no memory.
    pub fn step<W: Wiring>(&mut self, wiring: &W, event: Event) -> Result<(), Disabled>
        requires reached { IsReached (W.wires wiring.now) self.old }
        requires range { IsInRange (W.wires wiring.now) event }
        ensures ok { OnOk result (step (W.wires wiring.now) self.old event ≡ Some self.new) }
        ensures disabled { OnErr result (step (W.wires wiring.now) self.old event ≡ None) }
        ensures number { IfErr result (λ refusal. refusal.word ≡ number_at self.old event) }
        ensures kept { OnErr result (self.new ≡ self.old) }
        ensures reached { IsReached (W.wires wiring.now) self.new }
    {
        // The contract of this call tells the rules of the wiring.
        let _ = wiring.edges();
        let word = self.number_at(event);
        match self.actor(wiring, event) {
            Some(piece) if self.is_phase(event) => {
                self.change(event, piece);
                Ok(())
            }
            _ => Err(Disabled { word }),
        }
    }

    // The edge's word, or how many actions the piece has done.
    fn number_at(&self, event: Event) -> u64
        requires { HasPlace self.now event }
        ensures { result ≡ number_at self.now event }
    {
        match event {
            Event::ClaimPost { edge }
            | Event::Publish { edge }
            | Event::ClaimTake { edge }
            | Event::Release { edge } => self.words[edge as usize],
            Event::Compute { piece } => self.done[piece as usize],
        }
    }

    // Whether the word of the event's edge is one at which such an event may happen.
    fn is_phase(&self, event: Event) -> bool
        requires { HasPlace self.now event }
        ensures { IsTrue result ↔ IsPhase self.now event }
    {
        match event {
            Event::ClaimPost { edge } => self.words[edge as usize] % 4 == 0,
            Event::Publish { edge } => self.words[edge as usize] % 4 == 1,
            Event::ClaimTake { edge } => self.words[edge as usize] % 4 == 2,
            Event::Release { edge } => self.words[edge as usize] % 4 == 3,
            Event::Compute { piece: _ } => true,
        }
    }

    // The piece that acts, where its next action is the event's.
    fn actor<W: Wiring>(&self, wiring: &W, event: Event) -> Option<u32>
        requires sizes { length self.now.done ≡ length (W.wires wiring.now).scripts }
        requires wired { IsWired (W.wires wiring.now) }
        requires range { IsInRange (W.wires wiring.now) event }
        ensures found { IfSome result (λ piece. (piece ≡ actor_of (W.wires wiring.now) event)
            × (next_of (W.wires wiring.now) self.now piece ≡ Some (act_of event))) }
        ensures none { IfNone result (next_of (W.wires wiring.now) self.now (actor_of (W.wires wiring.now) event)
            ≢ Some (act_of event)) }
    {
        match event {
            Event::ClaimPost { edge } | Event::Publish { edge } => {
                self.first_with(wiring, Act::Post { edge })
            }
            Event::ClaimTake { edge } | Event::Release { edge } => {
                self.first_with(wiring, Act::Take { edge })
            }
            Event::Compute { piece } => self.is_next(wiring, piece, Act::Compute).then_some(piece),
        }
    }

    // The first piece whose next action this is.
    fn first_with<W: Wiring>(&self, wiring: &W, act: Act) -> Option<u32>
        requires { length self.now.done ≡ length (W.wires wiring.now).scripts }
        ensures found { IfSome result (λ piece. next_of (W.wires wiring.now) self.now piece ≡ Some act) }
        ensures none { IfNone result
            ((piece : ℕ) → piece < length self.now.done → next_of (W.wires wiring.now) self.now piece ≢ Some act) }
    {
        for piece in 0..wiring.pieces() {
            if self.is_next(wiring, piece, act) {
                return Some(piece);
            }
        }
        None
    }

    // Whether this is the piece's next action.
    fn is_next<W: Wiring>(&self, wiring: &W, piece: u32, act: Act) -> bool
        requires sizes { length self.now.done ≡ length (W.wires wiring.now).scripts }
        requires piece { piece < length self.now.done }
        ensures { IsTrue result ↔ (next_of (W.wires wiring.now) self.now piece ≡ Some act) }
    {
        match wiring.act(piece, self.done[piece as usize]) {
            Some(next) => next == act,
            None => false,
        }
    }

    // What the event changes, where this is the piece that acts.
    fn change(&mut self, event: Event, piece: u32)
        requires place { HasPlace self.old event }
        requires acts { piece < length self.old.done }
        requires words { (edge : ℕ) → word_of self.old edge < 2 ^ 63 }
        requires done { done_of self.old piece < 2 ^ 63 }
        ensures { self.new ≡ happens_by piece self.old event }
    {
        match event {
            Event::ClaimPost { edge } | Event::ClaimTake { edge } => self.words[edge as usize] += 1,
            Event::Publish { edge } | Event::Release { edge } => {
                self.words[edge as usize] += 1;
                self.done[piece as usize] += 1;
            }
            Event::Compute { piece: _ } => self.done[piece as usize] += 1,
        }
    }
}
