// A plain listing of scripts, in runs of three coupling steps, each of two fast steps and two ocean steps.
use cpl_core::Act;
use cpl_fixed::Component;
use cpl_wires::Job::*;
use cpl_wires::Move::{Does, Posts, Takes};
use cpl_wires::Purpose::*;
use cpl_wires::{Edge, Move, Purpose, Stop, Turn};
use std::alloc::{AllocError, Global};

const STEPS: u32 = 3;

/// Of either kind.
const STEPS_WITHIN: u32 = 2;

/// What a piece of a component does as a coupling step begins, in each of its fast steps, in each of its ocean steps, and as it ends.
type Table = (
    &'static [Move],
    &'static [Move],
    &'static [Move],
    &'static [Move],
);

const ATMOS: Table = (
    &[],
    &[
        Takes(LandToAir),
        Takes(IceToAir),
        Does(AirFlux),
        Posts(AirToLand),
        Posts(AirToIce),
        Posts(AirHalo),
        Does(AirInner),
        Takes(AirHalo),
        Does(AirRim),
    ],
    &[],
    &[],
);

const LAND: Table = (
    &[],
    &[Posts(LandToAir), Takes(AirToLand), Does(LandFast)],
    &[],
    &[Does(LandSlow), Posts(LandToIce)],
);

const ICE: Table = (
    &[Takes(OceanToIce), Does(IceTake)],
    &[Posts(IceToAir), Takes(AirToIce), Does(IceFast)],
    &[],
    &[Takes(LandToIce), Does(IceSlow), Posts(IceToOcean)],
);

const OCEAN: Table = (
    &[Takes(IceToOcean), Does(OceanAdd)],
    &[],
    &[
        Posts(OceanHalo),
        Does(OceanInner),
        Takes(OceanHalo),
        Does(OceanRim),
    ],
    &[Does(OceanCut), Posts(OceanToIce)],
);

// Between ice and ocean nothing is taken in the first coupling step, and nothing posted in the last.
fn is_left_out(kind: Move, step: u32) -> bool {
    match kind {
        Takes(OceanToIce | IceToOcean) => step == 0,
        Posts(OceanToIce | IceToOcean) => step == STEPS - 1,
        _ => false,
    }
}

// Adds a Post of each edge of a purpose that a piece posts.
fn add_posts(
    edges: &[Edge],
    piece: u32,
    purpose: Purpose,
    turn: Turn,
    stops: &mut Vec<Stop>,
) -> Result<(), AllocError> {
    let mut slot: u32 = 0;
    let mut number: u32 = 0;
    for edge in edges {
        if edge.from == piece {
            if edge.purpose == purpose {
                let act = Act::Post { edge: number };
                stops.push(Stop { act, slot, turn })?;
            }
            slot = slot.wrapping_add(1);
        }
        number = number.wrapping_add(1);
    }
    Ok(())
}

// Adds a Take of each edge of a purpose that a piece takes.
fn add_takes(
    edges: &[Edge],
    piece: u32,
    purpose: Purpose,
    turn: Turn,
    stops: &mut Vec<Stop>,
) -> Result<(), AllocError> {
    let mut slot: u32 = 0;
    let mut number: u32 = 0;
    for edge in edges {
        if edge.to == piece {
            if edge.purpose == purpose {
                let act = Act::Take { edge: number };
                stops.push(Stop { act, slot, turn })?;
            }
            slot = slot.wrapping_add(1);
        }
        number = number.wrapping_add(1);
    }
    Ok(())
}

// Adds moves of a coupling step, and of a fast step or an ocean step there.
fn add(
    edges: &[Edge],
    piece: u32,
    moves: &[Move],
    (step, sub): (u32, u32),
    stops: &mut Vec<Stop>,
) -> Result<(), AllocError> {
    for kind in moves {
        let kind = *kind;
        let turn = Turn { kind, step, sub };
        match kind {
            _ if is_left_out(kind, step) => {}
            Posts(purpose) => add_posts(edges, piece, purpose, turn, stops)?,
            Takes(purpose) => add_takes(edges, piece, purpose, turn, stops)?,
            Does(_) => stops.push(Stop {
                act: Act::Compute,
                slot: 0,
                turn,
            })?,
        }
    }
    Ok(())
}

// Adds the sums before a coupling step, or after the last.
fn add_sums(
    edges: &[Edge],
    piece: u32,
    step: u32,
    stops: &mut Vec<Stop>,
) -> Result<(), AllocError> {
    add(edges, piece, &[Posts(Sums)], (step, 0), stops)?;
    if piece == 0 {
        add(edges, piece, &[Takes(Sums), Does(Gather)], (step, 0), stops)?;
    }
    Ok(())
}

const fn table(component: Component) -> Table {
    match component {
        Component::Atmos => ATMOS,
        Component::Land => LAND,
        Component::Ice => ICE,
        Component::Ocean => OCEAN,
    }
}

/// All actions of a piece of a component.
pub(crate) fn stops(
    alloc: Global,
    edges: &[Edge],
    piece: u32,
    component: Component,
) -> Result<Vec<Stop>, AllocError> {
    let mut found = Vec::new(alloc);
    let (opens, fast, ocean, closes) = table(component);
    add_sums(edges, piece, 0, &mut found)?;
    for step in 0..STEPS {
        add(edges, piece, opens, (step, 0), &mut found)?;
        for sub in 0..STEPS_WITHIN {
            add(edges, piece, fast, (step, sub), &mut found)?;
        }
        for sub in 0..STEPS_WITHIN {
            add(edges, piece, ocean, (step, sub), &mut found)?;
        }
        add(edges, piece, closes, (step, 0), &mut found)?;
        add_sums(edges, piece, step + 1, &mut found)?;
    }
    Ok(found)
}
