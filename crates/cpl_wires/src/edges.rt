// All edges.
ghost use Rattle.std.specs.Prelude.{◌≡◌, ℕ, ◌++◌, ◌+◌, ◌<◌, ◌≤◌, IfOk, OnOk, All, length, map};
ghost use Rattle.std.specs.List.{range_with_len};
ghost use Rattle.cpl_xgrid.specs.Groups.{by_key};
ghost use Rattle.cpl_wires.specs.Settings.{Setting, piece_count};
ghost use Rattle.cpl_wires.specs.Purposes.{giver, receiver, pieces_or};
ghost use Rattle.cpl_wires.specs.Edges.{edges_of, edges_for, edges_from, edge_at, length_of, posted_by, taken_by, post_slot, take_slot};
ghost use Rattle.cpl_wires.specs.Laws.{IsOf, IsEdge};
ghost use Rattle.cpl_wires.specs.Tables.{AreMade, HaveEnds, edge_if, ends_most, poster, taker, poster_key, taker_key, slot_in};

use crate::parts::{Edge, Purpose};
use crate::shared::Shared;
use crate::slots::{end_number, post_slots, posted_edges, take_slots, taken_edges};
use cpl_fixed::Component;
use cpl_xgrid::Groups;
use std::alloc::{AllocError, Global};
use std::marker::Model;

// What each piece posts and takes, and the slots there.
#[derive(Drop)]
struct Ends {
    posted: Groups<u32>,
    taken: Groups<u32>,
    post_slots: Vec<u32>,
    take_slots: Vec<u32>,
}

// The edges, how long each is, and their ends.
#[derive(Drop)]
struct Tables {
    edges: Vec<Edge>,
    lens: Vec<usize>,
    ends: Ends,
}

// A setting with its edges.
#[derive(Drop)]
pub(crate) struct Edges {
    shared: Shared,
    tables: Tables,
}

impl Model for Edges {
    ghost use Rattle.cpl_wires.specs.Settings.{Setting};
    ghost use Rattle.cpl_wires.specs.Tables.{AreMade};

    ghost Value = { Setting };

    ghost view = { λ a. a.shared };

    ghost invariant = { λ a. AreMade a.shared a.tables.edges.items a.tables.lens.items a.tables.ends.posted a.tables.ends.taken a.tables.ends.post_slots.items a.tables.ends.take_slots.items };
}

// All purposes, in the order of the edges.
const PURPOSES: [Purpose; 10] = [
    Purpose::AirHalo,
    Purpose::LandToAir,
    Purpose::IceToAir,
    Purpose::AirToLand,
    Purpose::AirToIce,
    Purpose::LandToIce,
    Purpose::IceToOcean,
    Purpose::OceanToIce,
    Purpose::OceanHalo,
    Purpose::Sums,
];

// The component whose pieces post, and the one whose pieces take; none for the sums.
fn giver(purpose: Purpose) -> Option<Component>
    ensures { result ≡ giver purpose }
{
    match purpose {
        Purpose::AirHalo | Purpose::AirToLand | Purpose::AirToIce => Some(Component::Atmos),
        Purpose::LandToAir | Purpose::LandToIce => Some(Component::Land),
        Purpose::IceToAir | Purpose::IceToOcean => Some(Component::Ice),
        Purpose::OceanToIce | Purpose::OceanHalo => Some(Component::Ocean),
        Purpose::Sums => None,
    }
}

fn receiver(purpose: Purpose) -> Option<Component>
    ensures { result ≡ receiver purpose }
{
    match purpose {
        Purpose::AirHalo | Purpose::LandToAir | Purpose::IceToAir => Some(Component::Atmos),
        Purpose::AirToLand => Some(Component::Land),
        Purpose::AirToIce | Purpose::LandToIce | Purpose::OceanToIce => Some(Component::Ice),
        Purpose::IceToOcean | Purpose::OceanHalo => Some(Component::Ocean),
        Purpose::Sums => None,
    }
}

// The first piece of a component, and how many it has; or else piece 0 and so many.
fn range_or(shared: &Shared, component: Option<Component>, others: u32) -> (u32, u32)
    requires { others ≤ 256 }
    ensures range { range_with_len result.0 result.1 ≡ pieces_or shared.now (range_with_len 0 others) component }
    ensures each { (k : ℕ) → k < result.1 → IsOf shared.now others component (result.0 + k) }
    ensures few { result.0 + result.1 ≤ 256 }
{
    match component {
        Some(component) => (
            shared.pieces().base(component),
            shared.pieces().pieces(component),
        ),
        None => (0, others),
    }
}

// Adds an edge, if there is one.
fn add_if(
    shared: &Shared,
    purpose: Purpose,
    from: u32,
    to: u32,
    edges: &mut Vec<Edge>,
) -> Result<(), AllocError>
    requires from { IsOf shared.now (piece_count shared.now) (giver purpose) from }
    requires to { IsOf shared.now 1 (receiver purpose) to }
    ensures { OnOk result (edges.new.items ≡ edges.old.items ++ edge_if shared.now purpose from to) }
{
    if !shared.has_edge(purpose, from, to) {
        return Ok(());
    }
    edges.push(Edge { purpose, from, to })?;
    Ok(())
}

// Adds the edges of a purpose that a piece posts.
fn add_from(
    shared: &Shared,
    purpose: Purpose,
    from: u32,
    edges: &mut Vec<Edge>,
) -> Result<(), AllocError>
    requires { IsOf shared.now (piece_count shared.now) (giver purpose) from }
    ensures { OnOk result (edges.new.items ≡ edges.old.items ++ edges_from shared.now purpose from) }
{
    let (first, count) = range_or(shared, receiver(purpose), 1);
    for k in 0..count {
        add_if(shared, purpose, from, first + k, edges)?;
    }
    Ok(())
}

// Adds the edges of a purpose.
fn add_for(shared: &Shared, purpose: Purpose, edges: &mut Vec<Edge>) -> Result<(), AllocError>
    ensures { OnOk result (edges.new.items ≡ edges.old.items ++ edges_for shared.now purpose) }
{
    let (first, count) = range_or(shared, giver(purpose), shared.pieces().count());
    for k in 0..count {
        add_from(shared, purpose, first + k, edges)?;
    }
    Ok(())
}

// All edges, in order.
fn edges_of(alloc: Global, shared: &Shared) -> Result<Vec<Edge>, AllocError>
    ensures { IfOk result (λ edges. edges.items ≡ edges_of shared.now) }
{
    let mut edges = Vec::new(alloc);
    for purpose in &PURPOSES {
        add_for(shared, *purpose, &mut edges)?;
    }
    Ok(edges)
}

// How many numbers each use of each edge carries. A list that no memory could hold counts as out of memory.
fn lens_of(alloc: Global, shared: &Shared, list: &[Edge]) -> Result<Vec<usize>, AllocError>
    requires { All (IsEdge shared.now) list.now }
    ensures { IfOk result (λ lens. lens.items ≡ map (length_of shared.now) list.now) }
{
    let mut lens = Vec::with_capacity(alloc, list.len())?;
    for edge in list {
        lens.push(shared.len(*edge)?)?;
    }
    Ok(lens)
}

// The ends of edges.
fn ends_of(alloc: Global, list: &[Edge]) -> Result<Ends, AllocError>
    requires ends { HaveEnds list.now }
    requires few { length list.now ≤ 65_536 }
    ensures posted { IfOk result (λ ends. ends.posted ≡ by_key ends_most (map poster_key list.now)) }
    ensures taken { IfOk result (λ ends. ends.taken ≡ by_key ends_most (map taker_key list.now)) }
    ensures post_slots { IfOk result (λ ends. ends.post_slots.items ≡ map (slot_in (map poster list.now)) (range_with_len 0 (length (map poster list.now)))) }
    ensures take_slots { IfOk result (λ ends. ends.take_slots.items ≡ map (slot_in (map taker list.now)) (range_with_len 0 (length (map taker list.now)))) }
{
    let posted = posted_edges(alloc, list)?;
    let taken = taken_edges(alloc, list)?;
    let post_slots = post_slots(alloc, list)?;
    let take_slots = take_slots(alloc, list)?;
    Ok(Ends {
        posted,
        taken,
        post_slots,
        take_slots,
    })
}

// The tables of a setting.
fn tables_of(alloc: Global, shared: &Shared) -> Result<Tables, AllocError>
    ensures { IfOk result (λ tables. AreMade shared.now tables.edges.items tables.lens.items tables.ends.posted tables.ends.taken tables.ends.post_slots.items tables.ends.take_slots.items) }
{
    // The contract of `names` has the rules of the setting.
    let _names = shared.pieces().names();
    let edges = edges_of(alloc, shared)?;
    let lens = lens_of(alloc, shared, &edges)?;
    let ends = ends_of(alloc, &edges)?;
    Ok(Tables { edges, lens, ends })
}

impl Edges {
    pub(crate) fn new(alloc: Global, shared: Shared) -> Result<Edges, AllocError>
        ensures { IfOk result (λ edges. edges ≡ shared) }
    {
        let tables = tables_of(alloc, &shared)?;
        Ok(Edges { shared, tables })
    }

    pub(crate) fn shared(&self) -> &Shared
        ensures { result.now ≡ self.now }
    {
        &self.shared
    }

    // How many edges there are.
    pub(crate) fn count(&self) -> u32
        ensures { result ≡ length (edges_of self.now) }
    {
        self.tables.edges.len() as u32
    }

    // The edge of a number.
    pub(crate) fn edge(&self, edge: u32) -> Edge
        requires { edge < length (edges_of self.now) }
        ensures edge { result ≡ edge_at self.now edge }
        ensures rules { IsEdge self.now result }
    {
        self.tables.edges[edge as usize]
    }

    // How many numbers each of its uses carries.
    pub(crate) fn len(&self, edge: u32) -> usize
        requires { edge < length (edges_of self.now) }
        ensures { result ≡ length_of self.now (edge_at self.now edge) }
    {
        self.tables.lens[edge as usize]
    }

    // The edges of a purpose that a piece posts, in order.
    pub(crate) fn posted(&self, piece: u32, purpose: Purpose) -> &[u32]
        requires { piece < piece_count self.now }
        ensures edges { result.now ≡ posted_by self.now piece purpose }
        ensures few { length result.now ≤ 37_120 }
    {
        let _shared = &self.shared;
        self.tables.ends.posted.at(end_number(piece, purpose))
    }

    // The edges of a purpose that a piece takes, in order.
    pub(crate) fn taken(&self, piece: u32, purpose: Purpose) -> &[u32]
        requires { piece < piece_count self.now }
        ensures edges { result.now ≡ taken_by self.now piece purpose }
        ensures few { length result.now ≤ 37_120 }
    {
        let _shared = &self.shared;
        self.tables.ends.taken.at(end_number(piece, purpose))
    }

    // The slot of an edge at the piece that posts.
    pub(crate) fn post_slot(&self, edge: u32) -> u32
        requires { edge < length (edges_of self.now) }
        ensures { result ≡ post_slot self.now edge }
    {
        self.tables.ends.post_slots[edge as usize]
    }

    // The slot of an edge at the piece that takes.
    pub(crate) fn take_slot(&self, edge: u32) -> u32
        requires { edge < length (edges_of self.now) }
        ensures { result ≡ take_slot self.now edge }
    {
        self.tables.ends.take_slots[edge as usize]
    }
}
