// How boxes are made and closed, and how passes are cut in two and joined.
ghost use Rattle.std.specs.Prelude.{◌≡◌, ◌<◌, ◌≤◌, map, length, slice_index, IfOk, OnOk, OnErr};
ghost use Rattle.cpl_core.specs.Wires.{len_of, uses_of, value_of};
ghost use Rattle.cpl_box.specs.Views.{newcomer, onlooker, together};
ghost use Rattle.cpl_box.specs.Steps.{HasPosted, HasTaken};
ghost use Rattle.cpl_box.specs.Passes.{view_of, pass_name, IsPassOf, lens_of, lens_in};

use crate::pass::{Pass, PostBox};
use crate::steps;
use crate::steps::APART;
use crate::view::Cut;
use atomic_table::Table;
use cpl_core::{NotYet, Wiring};
use std::alloc::{AllocError, Global};

// A list of zeros for each edge, of the edge's length.
fn zero_lists<W: Wiring>(alloc: Global, wiring: &W, edges: u32) -> Result<Vec<Vec<i64>>, AllocError>
    requires { edges ≡ length (W.wires wiring.now).channels }
    ensures { IfOk result (λ lists. lens_in lists.items ≡ lens_of (W.wires wiring.now)) }
{
    let mut lists = Vec::with_capacity(alloc, edges as usize)?;
    for edge in 0..edges {
        lists.push(vec![in alloc; 0i64; wiring.len(edge)]?)?;
    }
    Ok(lists)
}

impl<W: Wiring> PostBox<W> {
    /// The boxes of this wiring, which has 1 to 65,536 edges, and their first pass, which has posted, taken,
    /// tried and seen nothing. Fails where there is no memory.
    pub fn new(alloc: Global, wiring: &W) -> Result<(PostBox<W>, Pass), AllocError>
        requires some { 0 < length (W.wires wiring.now).channels }
        requires most { length (W.wires wiring.now).channels ≤ 65536 }
        ensures pass { IfOk result (λ made. IsPassOf made.0 made.1) }
        ensures view { IfOk result (λ made. view_of made.1 ≡ newcomer (W.wires wiring.now)) }
    {
        let edges = wiring.edges();
        let words = vec![in alloc; 0u64; APART * edges as usize]?;
        let lists = zero_lists(alloc, wiring, edges)?;
        match Table::new(alloc, words.as_slice(), lists, wiring) {
            Ok((table, seat)) => Ok((PostBox { table }, Pass { seat })),
            Err(_) => Err(AllocError),
        }
    }

    /// Cuts a new pass from one of these boxes' passes. It has seen what that one has, and has posted,
    /// taken and tried nothing. The other stays as it was.
    pub fn split_pass(&self, pass: &mut Pass) -> Pass
        requires { IsPassOf self.now pass.old }
        ensures boxes { (pass_name pass.new ≡ pass_name pass.old) × (pass_name result ≡ pass_name pass.old) }
        ensures kept { view_of pass.new ≡ view_of pass.old }
        ensures cut { view_of result ≡ onlooker (view_of pass.old) }
    {
        let seat = self.table.shared.split_seat::<Cut>(&mut pass.seat);
        Pass { seat }
    }

    /// Joins another of these boxes' passes into this one, which then has the greater of both numbers of
    /// posts, of takes and of the words seen, edge by edge, and of tries.
    pub fn join_pass(&self, pass: &mut Pass, other: Pass)
        requires one { IsPassOf self.now pass.old }
        requires other { IsPassOf self.now other }
        ensures boxes { pass_name pass.new ≡ pass_name pass.old }
        ensures joined { view_of pass.new ≡ together (view_of pass.old) (view_of other) }
    {
        let Pass { seat } = other;
        self.table.shared.join_seat::<Cut>(&mut pass.seat, seat);
    }

    #[tactic(auto, using(crate::proofs::Names::name_tells))]
    // One try to post. What the pass knows afterwards is said by the steps on the box's word.
    pub(crate) fn post(
        &self,
        pass: &mut Pass,
        edge: u32,
        k: u64,
        buf: &mut Vec<i64>,
    ) -> Result<(), NotYet>
        requires pass { IsPassOf self.now pass.old }
        requires edge { edge < length (view_of pass.old).wires.channels }
        requires turn { (slice_index (view_of pass.old).posts edge ≡ k) × (k < uses_of (view_of pass.old).wires edge) }
        requires list { buf.old.items ≡ value_of (view_of pass.old).wires edge k }
        ensures boxes { pass_name pass.new ≡ pass_name pass.old }
        ensures view { HasPosted (view_of pass.old) edge k (view_of pass.new) result }
        ensures spare { OnOk result (length buf.new.items ≡ length buf.old.items) }
        ensures kept { OnErr result (buf.new ≡ buf.old) }
    {
        steps::post(&self.table.shared, &mut pass.seat, edge, k, buf)
    }

    #[tactic(auto, using(crate::proofs::Names::name_tells))]
    // One try to take.
    pub(crate) fn take(
        &self,
        pass: &mut Pass,
        edge: u32,
        k: u64,
        buf: &mut Vec<i64>,
    ) -> Result<(), NotYet>
        requires pass { IsPassOf self.now pass.old }
        requires edge { edge < length (view_of pass.old).wires.channels }
        requires turn { (slice_index (view_of pass.old).takes edge ≡ k) × (k < uses_of (view_of pass.old).wires edge) }
        requires list { length buf.old.items ≡ len_of (view_of pass.old).wires edge }
        ensures boxes { pass_name pass.new ≡ pass_name pass.old }
        ensures view { HasTaken (view_of pass.old) edge k (view_of pass.new) result }
        ensures value { OnOk result (buf.new.items ≡ value_of (view_of pass.old).wires edge k) }
        ensures kept { OnErr result (buf.new ≡ buf.old) }
    {
        steps::take(&self.table.shared, &mut pass.seat, edge, k, buf)
    }

    /// Frees the boxes and their lists.
    pub fn close(self, pass: Pass)
        requires { IsPassOf self pass }
    {
        drop(pass);
        drop(self);
    }
}
