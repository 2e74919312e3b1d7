// The buffer of one strip.
ghost use Rattle.std.specs.Prelude.{◌≡◌, ◌*◌, ◌<◌, length, IfOk};
ghost use Rattle.cpl_strip.specs.Strips.{strip_at};
ghost use Rattle.cpl_group.specs.Parts.{HasPlaces, HasHoles, Packs, Unpacks, size_of};

use cpl_field::Field;
use cpl_group::Group;
use std::alloc::{AllocError, Global};
use std::marker::Model;

/// The numbers on their way from a strip's places to its holes. Contracts see the list.
#[derive(Drop)]
pub(crate) struct Buffer {
    numbers: Vec<i64>,
}

impl Model for Buffer {
    ghost use Rattle.std.specs.Prelude.{List, ℤ};

    ghost Value = { List ℤ };

    ghost view = { λ a. a.numbers.items };
}

impl Buffer {
    pub(crate) fn new(alloc: Global, count: usize) -> Result<Buffer, AllocError>
        ensures { IfOk result (λ buffer. length buffer ≡ count) }
    {
        Ok(Buffer {
            numbers: vec![in alloc; 0; count]?,
        })
    }

    /// Takes the numbers at a strip's places.
    pub(crate) fn start(&mut self, group: &Group, strip: u32, field: &Field)
        requires strip { strip < length group.now.strips }
        requires single { group.now.fields ≡ 1 }
        requires places { HasPlaces (strip_at group.now.strips strip) field.now }
        requires length { length self.old ≡ size_of (strip_at group.now.strips strip) * 1 }
        ensures length { length self.new ≡ length self.old }
        ensures packs { Packs (strip_at group.now.strips strip) 0 field.now self.old self.new }
    {
        group.start(strip, 0, field, &mut self.numbers);
    }

    /// Puts the numbers into a strip's holes.
    pub(crate) fn complete(&self, group: &Group, strip: u32, field: &mut Field)
        requires strip { strip < length group.now.strips }
        requires single { group.now.fields ≡ 1 }
        requires holes { HasHoles (strip_at group.now.strips strip) field.old }
        requires length { length self.now ≡ size_of (strip_at group.now.strips strip) * 1 }
        ensures { Unpacks (strip_at group.now.strips strip) 0 self.now field.old field.new }
    {
        group.complete(strip, 0, field, &self.numbers);
    }
}
