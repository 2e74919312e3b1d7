// What edges and scripts are made of.
use cpl_core::Act;
use cpl_fixed::Component;

/// What an edge is for. Edges are numbered by purpose in this order, then by the piece that posts, then by the piece that takes.
/// Defined by this project.
#[derive(Clone, Copy, Debug, PartialEq, Eq)]
pub enum Purpose {
    /// Heat and vapour of the air beside the edges of its pieces, before the diffusion of a fast step.
    AirHalo,
    /// Heat and water of the land's cells, before a fast step.
    LandToAir,
    /// Areas, heat and mass of open water and ice, before a fast step.
    IceToAir,
    /// What the air gives to the land in a fast step.
    AirToLand,
    /// What the air gives to the ice in a fast step.
    AirToIce,
    /// Runoff, once in a coupling step.
    LandToIce,
    /// What the ice gives back, once in a coupling step, for the next one.
    IceToOcean,
    /// What the ocean's cut gives to the ice, once in a coupling step, for the next one.
    OceanToIce,
    /// Numbers of cells and of faces beside the edges of the ocean's pieces, before an ocean step.
    OceanHalo,
    /// A piece's part of the sums of the two tables, to piece 0.
    Sums,
}

/// An edge of a run by pieces: a one-way box from one piece to another, or to itself. Pieces are numbered atmos, land, ice, ocean.
/// Defined by this project.
#[derive(Clone, Copy, Debug, PartialEq, Eq)]
pub struct Edge {
    pub purpose: Purpose,
    /// The piece that posts.
    pub from: u32,
    /// The piece that takes.
    pub to: u32,
}

/// What a piece computes. Defined by this project.
#[derive(Clone, Copy, Debug, PartialEq, Eq)]
pub enum Job {
    /// Of a fast step of the air: fluxes, sun, space and rain.
    AirFlux,
    /// The diffusion of the air's cells that lie inside a piece.
    AirInner,
    /// The diffusion of the air's cells along the edges of a piece.
    AirRim,
    /// What the land gains in a fast step.
    LandFast,
    /// The land's runoff.
    LandSlow,
    /// The ice takes what flew to it.
    IceTake,
    /// What the ice gains in a fast step.
    IceFast,
    /// The ice's slow step, and what it gives back.
    IceSlow,
    /// The ocean adds what flew to it.
    OceanAdd,
    /// A step of the ocean's cells that lie inside a piece.
    OceanInner,
    /// A step of the ocean's cells along the edges of a piece.
    OceanRim,
    /// The cut of the ocean's water below freezing.
    OceanCut,
    /// Piece 0 makes a row of each table of all pieces' sums.
    Gather,
}

/// What a piece does next: it posts all its edges of a purpose, takes all of them, or computes.
#[derive(Clone, Copy, Debug, PartialEq, Eq)]
pub enum Move {
    Posts(Purpose),
    Takes(Purpose),
    Does(Job),
}

/// A move with its coupling step, from 0, and its fast step or ocean step there, which is 0 for what is done once in a coupling step.
/// The sums before coupling step n, of which the last are those after the run, have its number.
#[derive(Clone, Copy, Debug, PartialEq, Eq)]
pub struct Turn {
    pub kind: Move,
    pub step: u32,
    pub sub: u32,
}

/// One action of a script, the turn that it is part of, and the slot of its edge: how many of the piece's edges that it posts, or that
/// it takes, come before. A Compute has slot 0.
#[derive(Clone, Copy, Debug, PartialEq, Eq)]
pub struct Stop {
    pub act: Act,
    pub slot: u32,
    pub turn: Turn,
}

// How many actions a piece has in each part of its script: in the sums; as the first coupling step opens, and any other; in a fast step;
// in an ocean step; as a coupling step closes, and as the last one does; and in all.
#[derive(Clone, Copy)]
pub(crate) struct Lengths {
    pub(crate) component: Component,
    pub(crate) summing: u64,
    pub(crate) first_opening: u64,
    pub(crate) opening: u64,
    pub(crate) fast: u64,
    pub(crate) ocean: u64,
    pub(crate) closing: u64,
    pub(crate) last_closing: u64,
    pub(crate) actions: u64,
}
