// The exchanges of a run.
ghost use Rattle.std.specs.Prelude.{◌≡◌, ◌<◌, ◌≤◌, ◌^◌, IfOk, length, slice_get};
ghost use Rattle.std.specs.Option.{option_copied};
ghost use Rattle.cpl_namelist.specs.Ranges.{AreNames};
ghost use Rattle.cpl_xgrid.specs.Grids.{IsGrid};
ghost use Rattle.cpl_wires.specs.Settings.{Setting, IsSetting, layout_of, pieces_in, base_of, piece_count, component_of};
ghost use Rattle.cpl_wires.specs.Purposes.{uses_for};
ghost use Rattle.cpl_wires.specs.Pairs.{carried};
ghost use Rattle.cpl_wires.specs.Edges.{edges_of, edge_at, length_of, posted_by, taken_by, post_slot, take_slot};
ghost use Rattle.cpl_wires.specs.Stops.{stops};
ghost use Rattle.cpl_wires.specs.Laws.{IsEdge};
ghost use Rattle.cpl_wires.specs.Lengths.{all_lengths};
ghost use Rattle.cpl_wires.specs.Tables.{strip_of, face_strip_of};

use crate::edges::Edges;
use crate::parts::{Edge, Lengths, Purpose, Stop};
use crate::pieces::Pieces;
use crate::script::{lengths_of, stop_at};
use crate::shared::Shared;
use cpl_fixed::Component;
use cpl_layout::Layout;
use cpl_namelist::Names;
use cpl_strip::{FaceStrip, Strip};
use cpl_xgrid::Grid;
use std::alloc::{AllocError, Global};
use std::marker::Model;

/// The grid and the names of a run by pieces, with all that follows for its pieces: the edges, what each carries, and the scripts.
/// Contracts see the grid and the names.
///
/// It is made once for a run. Its memory is linear in exchange cells, outlets, cells of the ocean, strips and edges, and does not grow
/// with the steps. No call but `new` takes memory.
#[derive(Drop)]
pub struct Exchanges {
    edges: Edges,
    lengths: Vec<Lengths>,
}

impl Model for Exchanges {
    ghost use Rattle.std.specs.Prelude.{◌≡◌};
    ghost use Rattle.cpl_wires.specs.Settings.{Setting};
    ghost use Rattle.cpl_wires.specs.Lengths.{all_lengths};

    ghost Value = { Setting };

    ghost view = { λ a. a.edges };

    ghost invariant = { λ a. a.lengths.items ≡ all_lengths a.edges };
}

// How long the parts of all scripts are.
fn all_lengths(alloc: Global, edges: &Edges) -> Result<Vec<Lengths>, AllocError>
    ensures { IfOk result (λ lengths. lengths.items ≡ all_lengths edges.now) }
{
    let count = edges.shared().pieces().count();
    let mut lengths = Vec::with_capacity(alloc, count as usize)?;
    for piece in 0..count {
        lengths.push(lengths_of(edges, piece))?;
    }
    Ok(lengths)
}

impl Exchanges {
    /// The exchanges of a grid and the names of a run, whose layouts fit the grid's mosaics. It takes time linear in exchange cells,
    /// outlets, cells of the ocean, strips and edges, and in the pairs of pieces. An edge whose list no memory could hold counts as out
    /// of memory.
    pub fn new(alloc: Global, grid: Grid, names: Names) -> Result<Exchanges, AllocError>
        requires grid { IsGrid grid }
        requires setting { IsSetting (record { grid = grid; names = names }) }
        ensures { IfOk result (λ exchanges. exchanges ≡ record { grid = grid; names = names }) }
    {
        let pieces = Pieces::new(alloc, grid, names)?;
        let shared = Shared::new(alloc, pieces)?;
        let edges = Edges::new(alloc, shared)?;
        let lengths = all_lengths(alloc, &edges)?;
        Ok(Exchanges { edges, lengths })
    }

    // The pieces of all components.
    fn pieces(&self) -> &Pieces
        ensures { result.now ≡ self.now }
    {
        self.edges.shared().pieces()
    }

    /// The grid.
    pub fn grid(&self) -> &Grid
        ensures grid { result.now ≡ self.now.grid }
        ensures lawful { IsGrid self.now.grid }
    {
        self.pieces().grid()
    }

    /// The names of the run.
    pub fn names(&self) -> &Names
        ensures names { result.now ≡ self.now.names }
        ensures lawful { IsSetting self.now }
    {
        self.pieces().names()
    }

    /// How many pieces all components have, 4 to 256. Pieces are numbered atmos, land, ice, ocean.
    pub fn piece_count(&self) -> u32
        ensures { result ≡ piece_count self.now }
    {
        self.pieces().count()
    }

    /// The component that a piece is of.
    pub fn component(&self, piece: u32) -> Component
        requires { piece < piece_count self.now }
        ensures { result ≡ component_of self.now piece }
    {
        self.pieces().component(piece)
    }

    /// The first piece of a component. Its pieces follow each other.
    pub fn base(&self, component: Component) -> u32
        ensures { result ≡ base_of self.now component }
    {
        self.pieces().base(component)
    }

    /// How many pieces a component has, 1 to 64.
    pub fn pieces_in(&self, component: Component) -> u32
        ensures { result ≡ pieces_in self.now component }
    {
        self.pieces().pieces(component)
    }

    /// The layout of a component. It counts the pieces of the component alone.
    pub fn layout(&self, component: Component) -> &Layout
        ensures { result.now ≡ layout_of self.now component }
    {
        self.pieces().layout(component)
    }

    /// How many edges there are, 1 to 37,120. Edges are numbered by purpose, then by the piece that posts, then by the piece that takes.
    pub fn edge_count(&self) -> u32
        ensures { result ≡ length (edges_of self.now) }
    {
        self.edges.count()
    }

    /// The edge of a number.
    pub fn edge(&self, edge: u32) -> Edge
        requires { edge < length (edges_of self.now) }
        ensures edge { result ≡ edge_at self.now edge }
        ensures rules { IsEdge self.now result }
    {
        self.edges.edge(edge)
    }

    /// How many numbers each use of an edge carries.
    pub fn len(&self, edge: u32) -> usize
        requires { edge < length (edges_of self.now) }
        ensures { result ≡ length_of self.now (edge_at self.now edge) }
    {
        self.edges.len(edge)
    }

    /// How often an edge is used, at most 10,000,000 times.
    pub fn uses(&self, edge: u32) -> u64
        requires { edge < length (edges_of self.now) }
        ensures { result ≡ uses_for self.now.names (edge_at self.now edge).purpose }
    {
        uses_for(self.names(), self.edge(edge).purpose)
    }

    /// The exchange cells, outlets or cells that an edge carries numbers of, by their numbers in the order of the file, or in whole order.
    /// Halos and sums carry none.
    pub fn carried(&self, edge: u32) -> &[u32]
        requires { edge < length (edges_of self.now) }
        ensures { result.now ≡ carried self.now (edge_at self.now edge).purpose (edge_at self.now edge).from (edge_at self.now edge).to }
    {
        let Edge { purpose, from, to } = self.edge(edge);
        self.edges.shared().carried(purpose, from, to)
    }

    /// The strip that an edge carries numbers of cells by. None exactly where it carries none by a strip.
    pub fn strip(&self, edge: u32) -> Option<&Strip>
        requires { edge < length (edges_of self.now) }
        ensures { option_copied result ≡ strip_of self.now (edge_at self.now edge) }
    {
        let Edge { purpose, from, to } = self.edge(edge);
        self.edges.shared().strip(purpose, from, to)
    }

    /// The face strip that an edge carries numbers of faces by. None exactly where it carries none.
    pub fn face_strip(&self, edge: u32) -> Option<&FaceStrip>
        requires { edge < length (edges_of self.now) }
        ensures { option_copied result ≡ face_strip_of self.now (edge_at self.now edge) }
    {
        let Edge { purpose, from, to } = self.edge(edge);
        self.edges.shared().face_strip(purpose, from, to)
    }

    /// The edges of a purpose that a piece posts, in order.
    pub fn posted(&self, piece: u32, purpose: Purpose) -> &[u32]
        requires { piece < piece_count self.now }
        ensures { result.now ≡ posted_by self.now piece purpose }
    {
        self.edges.posted(piece, purpose)
    }

    /// The edges of a purpose that a piece takes, in order.
    pub fn taken(&self, piece: u32, purpose: Purpose) -> &[u32]
        requires { piece < piece_count self.now }
        ensures { result.now ≡ taken_by self.now piece purpose }
    {
        self.edges.taken(piece, purpose)
    }

    /// The slot of an edge at the piece that posts it: how many of the edges that this piece posts come before.
    pub fn post_slot(&self, edge: u32) -> u32
        requires { edge < length (edges_of self.now) }
        ensures { result ≡ post_slot self.now edge }
    {
        self.edges.post_slot(edge)
    }

    /// The slot of an edge at the piece that takes it.
    pub fn take_slot(&self, edge: u32) -> u32
        requires { edge < length (edges_of self.now) }
        ensures { result ≡ take_slot self.now edge }
    {
        self.edges.take_slot(edge)
    }

    /// How many actions the script of a piece has, at most 2^62.
    pub fn actions(&self, piece: u32) -> u64
        requires { piece < piece_count self.now }
        ensures { result ≡ length (stops self.now piece) }
    {
        self.lengths[piece as usize].actions
    }

    /// The action of a number, from 0, in the script of a piece, and none exactly after its end. It takes constant time.
    pub fn stop(&self, piece: u32, m: u64) -> Option<Stop>
        requires { piece < piece_count self.now }
        ensures { result ≡ slice_get (stops self.now piece) m }
    {
        stop_at(&self.edges, &self.lengths[piece as usize], piece, m)
    }
}

// How often an edge of a purpose is used.
#[tactic(auto, unfolding(crate::specs::Purposes::uses_for))]
fn uses_for(names: &Names, purpose: Purpose) -> u64
    requires { AreNames names.now }
    ensures { result ≡ uses_for names.now purpose }
{
    let steps = u64::from(names.steps);
    match purpose {
        Purpose::AirHalo
        | Purpose::LandToAir
        | Purpose::IceToAir
        | Purpose::AirToLand
        | Purpose::AirToIce => steps * u64::from(names.fast),
        Purpose::LandToIce => steps,
        Purpose::IceToOcean | Purpose::OceanToIce => steps.saturating_sub(1),
        Purpose::OceanHalo => steps * u64::from(names.ocean_steps),
        Purpose::Sums => steps + 1,
    }
}
