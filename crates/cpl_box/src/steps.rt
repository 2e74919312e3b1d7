// What a poster and a taker do with a box.
ghost use Rattle.std.specs.Prelude.{◌≡◌, ◌+◌, ◌*◌, ◌%◌, ◌^◌, ◌<◌, ◌≤◌, [], length, slice_index, MatchResult};
ghost use Rattle.cpl_core.specs.Wires.{len_of, uses_of, value_of};
ghost use Rattle.cpl_box.specs.Steps.{IsSame, IsAtRest, Tries, HasPosted, HasTaken};

use crate::view::{BoxSeat, Claim, Publish, Release, Words};
use cpl_core::{NotYet, Wiring};
use std::mem::swap;

// Words of different edges are 64 bytes apart, so that they share no cache line.
pub(crate) const APART: usize = 8;

// One compare and exchange on the word of an edge, from an even number to the next. It tells the word found.
fn claim<W: Wiring>(words: &Words<W>, seat: &mut BoxSeat, edge: u32, from: u64) -> u64
    requires rest { IsAtRest words.now.table_id seat.old }
    requires edge { edge < words.now.table_id.slots }
    requires even { from % 2 ≡ 0 }
    requires uses { from + 1 ≤ 4 * uses_of seat.old.me.0.wires edge }
    requires fits { from + 1 < 2 ^ 64 }
    ensures same { IsSame seat.old seat.new }
    ensures tries { Tries edge from seat.old.me result seat.new.me }
{
    words.compare_exchange::<Claim>(seat, APART * edge as usize, from, from + 1)
}

// Exchanges the list of `buf` with that of the box, where the box awaits the k-th post. One compare and
// exchange where it doesn't, which tells the word found.
pub(crate) fn post<W: Wiring>(
    words: &Words<W>,
    seat: &mut BoxSeat,
    edge: u32,
    k: u64,
    buf: &mut Vec<i64>,
) -> Result<(), NotYet>
    requires rest { IsAtRest words.now.table_id seat.old }
    requires edge { edge < words.now.table_id.slots }
    requires turn { (slice_index seat.old.me.0.posts edge ≡ k) × (k < uses_of seat.old.me.0.wires edge) × (k < 2 ^ 60) }
    requires list { (buf.old.items ≡ value_of seat.old.me.0.wires edge k) × (length buf.old.items ≡ len_of seat.old.me.0.wires edge) }
    ensures same { IsSame seat.old seat.new × (seat.new.me.1 ≡ []) }
    ensures view { HasPosted seat.old.me.0 edge k seat.new.me.0 result }
    ensures list { MatchResult result (λ _. length buf.new.items ≡ length buf.old.items) (λ _. buf.new ≡ buf.old) }
{
    let free = 4 * k;
    let found = claim(words, seat, edge, free);
    if found != free {
        return Err(NotYet { edge, word: found });
    }
    swap(seat.slot_mut(words, edge as usize), buf);
    words.store::<Publish>(seat, APART * edge as usize, free + 2);
    Ok(())
}

// Exchanges the list of `buf` with that of the box, where the box is full for the k-th time. One compare and
// exchange where it isn't, which tells the word found.
pub(crate) fn take<W: Wiring>(
    words: &Words<W>,
    seat: &mut BoxSeat,
    edge: u32,
    k: u64,
    buf: &mut Vec<i64>,
) -> Result<(), NotYet>
    requires rest { IsAtRest words.now.table_id seat.old }
    requires edge { edge < words.now.table_id.slots }
    requires turn { (slice_index seat.old.me.0.takes edge ≡ k) × (k < uses_of seat.old.me.0.wires edge) × (k < 2 ^ 60) }
    requires list { length buf.old.items ≡ len_of seat.old.me.0.wires edge }
    ensures same { IsSame seat.old seat.new × (seat.new.me.1 ≡ []) }
    ensures view { HasTaken seat.old.me.0 edge k seat.new.me.0 result }
    ensures list { MatchResult result (λ _. buf.new.items ≡ value_of seat.old.me.0.wires edge k) (λ _. buf.new ≡ buf.old) }
{
    let full = 4 * k + 2;
    let found = claim(words, seat, edge, full);
    if found != full {
        return Err(NotYet { edge, word: found });
    }
    swap(buf, seat.slot_mut(words, edge as usize));
    words.store::<Release>(seat, APART * edge as usize, 4 * k + 4);
    Ok(())
}
