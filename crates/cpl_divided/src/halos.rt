// The halos of all pieces, filled by strips.
ghost use Rattle.std.specs.Prelude.{◌≡◌, ◌<◌, ◌≤◌, ◌^◌, length, IfOk};
ghost use Rattle.cpl_strip.specs.Strips.{AreStrips};
ghost use Rattle.cpl_divided.specs.Fields.{AreJoined, Carries};
ghost use Rattle.cpl_divided.specs.Buffers.{AreEnds, AreBuffers, AreStarted};

use crate::buffer::Buffer;
use cpl_field::Field;
use cpl_group::Group;
use cpl_layout::Layout;
use cpl_mosaic::Mosaic;
use cpl_strip::{Strip, strips};
use std::alloc::{AllocError, Global};
use std::marker::Model;

/// The strips of a layout for halos one cell wide, with a buffer for each. Contracts see the strips.
#[derive(Drop)]
pub(crate) struct Halos {
    group: Group,
    ends: Vec<(u32, u32)>,
    buffers: Vec<Buffer>,
}

impl Model for Halos {
    ghost use Rattle.std.specs.Prelude.{List};
    ghost use Rattle.cpl_strip.specs.declared.parts.Strip.{Strip};
    ghost use Rattle.cpl_divided.specs.Buffers.{AreHalos};

    ghost Value = { List Strip };

    ghost view = { λ a. a.group.strips };

    ghost invariant = { λ a. AreHalos a.group a.ends.items a.buffers.items };
}

// Each buffer takes the numbers at its strip's places.
fn start_all(group: &Group, ends: &[(u32, u32)], fields: &[Field], buffers: &mut [Buffer])
    requires few { length group.now.strips < 2 ^ 32 }
    requires single { group.now.fields ≡ 1 }
    requires ends { AreEnds group.now.strips ends.now }
    requires fields { AreJoined group.now.strips fields.now }
    requires buffers { AreBuffers group.now.strips buffers.old }
    ensures { AreStarted group.now.strips fields.now buffers.new }
{
    for m in 0..ends.len() {
        let (from, _to) = ends[m];
        buffers[m].start(group, m as u32, &fields[from as usize]);
    }
}

// Each strip's holes get the numbers of its buffer.
fn complete_all(group: &Group, ends: &[(u32, u32)], buffers: &[Buffer], fields: &mut [Field])
    requires few { length group.now.strips < 2 ^ 32 }
    requires single { group.now.fields ≡ 1 }
    requires ends { AreEnds group.now.strips ends.now }
    requires fields { AreJoined group.now.strips fields.old }
    requires started { AreStarted group.now.strips fields.old buffers.now }
    ensures { Carries group.now.strips fields.old fields.new }
{
    for m in 0..ends.len() {
        let (_from, to) = ends[m];
        buffers[m].complete(group, m as u32, &mut fields[to as usize]);
    }
}

// The pieces that each strip joins: the one that gives, and the one that takes.
fn ends_of(alloc: Global, strips: &[Strip]) -> Result<Vec<(u32, u32)>, AllocError>
    ensures { IfOk result (λ ends. AreEnds strips.now ends.items) }
{
    let mut ends = Vec::with_capacity(alloc, strips.len())?;
    for strip in strips {
        ends.push((strip.from, strip.to))?;
    }
    Ok(ends)
}

// A buffer for each of so many strips.
fn buffers_of(alloc: Global, group: &Group, count: usize) -> Result<Vec<Buffer>, AllocError>
    requires count { length group.now.strips ≡ count }
    requires few { count < 2 ^ 32 }
    requires single { group.now.fields ≡ 1 }
    ensures { IfOk result (λ buffers. AreBuffers group.now.strips buffers.items) }
{
    let mut buffers = Vec::with_capacity(alloc, count)?;
    for m in 0..count {
        buffers.push(Buffer::new(alloc, group.len(m as u32))?)?;
    }
    Ok(buffers)
}

impl Halos {
    /// The strips between the pieces of a layout, each with a buffer.
    pub(crate) fn new(alloc: Global, layout: &Layout, mosaic: &Mosaic) -> Result<Halos, AllocError>
        requires { layout.now.tiles ≡ mosaic.now.tiles }
        ensures { IfOk result (λ halos. AreStrips mosaic.now layout.now 1 halos) }
    {
        // The contract of `pieces` has the limit of their number.
        let _pieces = layout.pieces();
        let strips = strips(alloc, layout, mosaic, 1)?;
        let ends = ends_of(alloc, &strips)?;
        let group = Group::new(strips, 1)?;
        let buffers = buffers_of(alloc, &group, ends.len())?;
        Ok(Halos {
            group,
            ends,
            buffers,
        })
    }

    /// Fills the halos of all fields: all strips are started, and then all are completed. It takes no memory.
    pub(crate) fn fill(&mut self, fields: &mut Vec<Field>)
        requires { AreJoined self.old fields.old.items }
        ensures strips { self.new ≡ self.old }
        ensures fields { Carries self.old fields.old.items fields.new.items }
    {
        start_all(&self.group, &self.ends, fields, &mut self.buffers);
        complete_all(&self.group, &self.ends, &self.buffers, fields);
    }
}
