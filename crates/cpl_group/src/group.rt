// Strips with a buffer's layout.
ghost use Rattle.std.specs.Prelude.{◌≡◌, ◌*◌, ◌^◌, ◌<◌, ◌≤◌, ℕ, ℤ, List, length, IfOk, All};
ghost use Rattle.std.specs.Bool.{OnTrue};
ghost use Rattle.cpl_field.specs.Spots.{FieldNumbers, number_at};
ghost use Rattle.cpl_strip.specs.declared.parts.Strip.{Strip as StripItems};
ghost use Rattle.cpl_strip.specs.Strips.{strip_at};
ghost use Rattle.cpl_group.specs.Parts.{IsStrip, HasPlaces, HasHoles, Packs, Unpacks, size_of, part_at, source, target};

use crate::parts::{gather, scatter};
use cpl_field::Field;
use cpl_strip::Strip;
use std::alloc::AllocError;
use std::marker::Model;

/// The strips of one width, with a layout of their buffers for 1 to 32 fields. The buffer of a strip has a part for each
/// field, one after the other, of as many numbers as the strip has places. FMS calls it a group update.
#[derive(Drop)]
pub struct Group {
    strips: Vec<Strip>,
    fields: u32,
}

impl Model for Group {
    ghost use Rattle.cpl_group.specs.Parts.{Strips, IsGroup};

    ghost Value = { Strips };

    ghost view = { λ a. record { strips = a.strips.items; fields = a.fields } };

    ghost invariant = { λ a. IsGroup (record { strips = a.strips.items; fields = a.fields }) };
}

// Whether the length of each strip's buffer can be counted.
fn are_countable(strips: &[Strip], fields: u32) -> bool
    ensures { OnTrue result (All (λ strip. size_of strip * fields < 2 ^ 64) strips.now) }
{
    for strip in strips {
        if strip.places.len().checked_mul(fields as usize).is_none() {
            return false;
        }
    }
    true
}

impl Group {
    /// Groups the updates of so many fields. Each strip has as many places as holes, and no hole twice. A strip whose buffer
    /// no memory could hold counts as out of memory. It takes no memory.
    pub fn new(strips: Vec<Strip>, fields: u32) -> Result<Group, AllocError>
        requires some { 1 ≤ fields }
        requires few { fields ≤ 32 }
        requires strips { All IsStrip strips.items }
        ensures strips { IfOk result (λ group. group.strips ≡ strips.items) }
        ensures fields { IfOk result (λ group. group.fields ≡ fields) }
    {
        if !are_countable(&strips, fields) {
            return Err(AllocError);
        }
        Ok(Group { strips, fields })
    }

    /// The n-th strip.
    pub fn strip(&self, n: u32) -> &Strip
        requires { n < length self.now.strips }
        ensures strip { result.now ≡ strip_at self.now.strips n }
        ensures rules { IsStrip result.now }
    {
        &self.strips[n as usize]
    }

    /// How many numbers the buffer of a strip has.
    pub fn len(&self, strip: u32) -> usize
        requires { strip < length self.now.strips }
        ensures { result ≡ size_of (strip_at self.now.strips strip) * self.now.fields }
    {
        self.strips[strip as usize].places.len() * self.fields as usize
    }

    /// Puts the n-th field's numbers at the strip's places into its part of the buffer, in their order, and changes nothing
    /// else in the buffer. It takes no memory.
    pub fn start(&self, strip: u32, n: u32, field: &Field, buf: &mut [i64])
        requires strip { strip < length self.now.strips }
        requires field { n < self.now.fields }
        requires places { HasPlaces (strip_at self.now.strips strip) field.now }
        requires length { length buf.old ≡ size_of (strip_at self.now.strips strip) * self.now.fields }
        ensures { Packs (strip_at self.now.strips strip) n field.now buf.old buf.new }
    {
        let places = self.strips[strip as usize].places.as_slice();
        gather(places, field, n as usize * places.len(), buf);
    }

    /// Puts the numbers of the n-th field's part of the buffer into the strip's holes, in their order, and changes nothing
    /// else in the field. It takes no memory.
    pub fn complete(&self, strip: u32, n: u32, field: &mut Field, buf: &[i64])
        requires strip { strip < length self.now.strips }
        requires field { n < self.now.fields }
        requires holes { HasHoles (strip_at self.now.strips strip) field.old }
        requires length { length buf.now ≡ size_of (strip_at self.now.strips strip) * self.now.fields }
        ensures { Unpacks (strip_at self.now.strips strip) n buf.now field.old field.new }
    {
        let strip = &self.strips[strip as usize];
        let holes = strip.holes.as_slice();
        scatter(holes, field, n as usize * holes.len(), buf);
    }
}

/// `start` of field n and then `complete` of field n fill a strip's holes with the numbers at its places, whatever the other
/// parts of the buffer hold.
pub fn group_law()
    ensures { (strip : StripItems) (n : ℕ) (field old new : FieldNumbers) (before started buffer : List ℤ) → Packs strip n field before started → ((k : ℕ) → k < size_of strip → part_at strip n buffer k ≡ part_at strip n started k) → Unpacks strip n buffer old new → (k : ℕ) → k < size_of strip → number_at new (target strip k) ≡ number_at field (source strip k) }
{}
