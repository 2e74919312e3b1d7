// The made grid of number 7 and size 4, beside plain listings: tiles of air and land are cut into 2 by 3 pieces, the ice into 3 by 2 and the
// ocean into 2 by 3. So the air has the pieces 0 to 35, the land 36 to 71, the ice 72 to 77 and the ocean 78 to 83.
use crate::listing::{Ends, faces, listed};
use crate::turns::stops;
use crate::worlds::{Question, made_holds};
use cpl_fixed::Component;
use cpl_wires::Purpose::*;
use cpl_wires::{Edge, Exchanges, Purpose, Stop};
use std::alloc::{AllocError, Global};
use std::test::Fail;

/// Three coupling steps, each of two fast steps and two ocean steps.
const NAMES: &str =
    "&coupler_nml current_date = 2001,1,1,0,0,0, calendar = 'gregorian', hours = 3, dt_atmos = 1800, dt_cpld = 3600 /
&ocean_nml dt_ocean = 1800 /
&layout_nml atmos_layout = 2,3, land_layout = 2,3, ice_layout = 3,2, ocean_layout = 2,3 /
";

const PIECES: u32 = 84;

/// Each purpose with its uses, and how many numbers it carries of each exchange cell, outlet, cell or hole: the made grid has two layers of
/// the ocean, and three categories beside the open water.
const PURPOSES: [(Purpose, u64, usize); 10] = [
    (AirHalo, 6, 2),
    (LandToAir, 6, 2),
    (IceToAir, 6, 16),
    (AirToLand, 6, 4),
    (AirToIce, 6, 16),
    (LandToIce, 3, 2),
    (IceToOcean, 2, 3),
    (OceanToIce, 2, 5),
    (OceanHalo, 6, 6),
    (Sums, 4, 168),
];

/// Layers of the ocean, each with a number for each face.
const LAYERS: usize = 2;

// What a piece hands over, each with the piece that takes it.
fn given_by(alloc: Global, ends: &[Ends], from: u32) -> Result<Vec<(u32, u32)>, AllocError> {
    let mut found = Vec::new(alloc);
    let mut number: u32 = 0;
    for (giver, taker) in ends {
        if *giver == from {
            found.push((*taker, number))?;
        }
        number = number.wrapping_add(1);
    }
    Ok(found)
}

// What of it a piece takes.
fn taken_by(alloc: Global, given: &[(u32, u32)], to: u32) -> Result<Vec<u32>, AllocError> {
    let mut found = Vec::new(alloc);
    for (taker, number) in given {
        if *taker == to {
            found.push(*number)?;
        }
    }
    Ok(found)
}

// An edge, with its uses, how many numbers each carries of an item, and the items.
#[derive(Drop)]
struct Listed {
    edge: Edge,
    uses: u64,
    width: usize,
    items: Vec<u32>,
}

// Adds the edges of a purpose.
fn list(
    alloc: Global,
    exchanges: &Exchanges,
    (purpose, uses, width): (Purpose, u64, usize),
    found: &mut Vec<Listed>,
) -> Result<(), AllocError> {
    let ends = listed(alloc, exchanges, purpose)?;
    for from in 0..PIECES {
        let given = given_by(alloc, &ends, from)?;
        for to in 0..PIECES {
            let items = taken_by(alloc, &given, to)?;
            if !items.is_empty() {
                let edge = Edge { purpose, from, to };
                found.push(Listed {
                    edge,
                    uses,
                    width,
                    items,
                })?;
            }
        }
    }
    Ok(())
}

// All edges.
fn all(alloc: Global, exchanges: &Exchanges) -> Result<Vec<Listed>, AllocError> {
    let mut found = Vec::new(alloc);
    for row in PURPOSES {
        list(alloc, exchanges, row, &mut found)?;
    }
    Ok(found)
}

// How many numbers a use has.
fn len(listed: &Listed, faces: &[Ends]) -> usize {
    let Edge { purpose, from, to } = listed.edge;
    let cells = listed.items.len().wrapping_mul(listed.width);
    if purpose != OceanHalo {
        return cells;
    }
    let mut len = cells;
    for ends in faces {
        if *ends == (from, to) {
            len = len.wrapping_add(LAYERS);
        }
    }
    len
}

// What it carries numbers of; none of halos and sums.
fn carried(listed: &Listed) -> &[u32] {
    match listed.edge.purpose {
        AirHalo | OceanHalo | Sums => &[],
        _ => listed.items.as_slice(),
    }
}

// Whether these are all edges.
fn edges_agree(exchanges: &Exchanges, all: &[Listed], faces: &[Ends]) -> bool {
    if exchanges.edge_count() as usize != all.len() {
        return false;
    }
    for (number, listed) in all.iter().enumerate() {
        let number = number as u32;
        let found = exchanges.edge(number) == listed.edge
            && exchanges.uses(number) == listed.uses
            && exchanges.len(number) == len(listed, faces)
            && exchanges.carried(number) == carried(listed);
        if !found {
            return false;
        }
    }
    true
}

#[derive(Drop)]
struct AllEdges;

impl Question for AllEdges {
    fn holds(&self, alloc: Global, exchanges: &Exchanges) -> Result<bool, AllocError> {
        let all = all(alloc, exchanges)?;
        let faces = faces(alloc, exchanges)?;
        Ok(
            exchanges.piece_count() == PIECES
                && all.len() > 84
                && !faces.is_empty()
                && edges_agree(exchanges, &all, &faces),
        )
    }
}

#[test]
fn edges_of_a_made_grid(rt: HostRuntime) -> Result<(), Fail> {
    assert!(rt; made_holds(rt.alloc(), NAMES, &AllEdges)?);
    Ok(())
}

const fn component(piece: u32) -> Component {
    match piece {
        0..=35 => Component::Atmos,
        36..=71 => Component::Land,
        72..=77 => Component::Ice,
        _ => Component::Ocean,
    }
}

// Whether these are all actions of a piece.
fn stops_are(exchanges: &Exchanges, piece: u32, wanted: &[Stop]) -> bool {
    if piece >= exchanges.piece_count() || exchanges.actions(piece) != wanted.len() as u64 {
        return false;
    }
    for (m, stop) in wanted.iter().enumerate() {
        if exchanges.stop(piece, m as u64) != Some(*stop) {
            return false;
        }
    }
    exchanges.stop(piece, wanted.len() as u64).is_none()
}

#[derive(Drop)]
struct AllScripts;

impl Question for AllScripts {
    fn holds(&self, alloc: Global, exchanges: &Exchanges) -> Result<bool, AllocError> {
        let mut edges = Vec::new(alloc);
        for listed in &all(alloc, exchanges)? {
            edges.push(listed.edge)?;
        }
        for piece in 0..PIECES {
            let wanted = stops(alloc, &edges, piece, component(piece))?;
            if !stops_are(exchanges, piece, &wanted) {
                return Ok(false);
            }
        }
        Ok(true)
    }
}

#[test]
fn scripts_of_a_made_grid(rt: HostRuntime) -> Result<(), Fail> {
    assert!(rt; made_holds(rt.alloc(), NAMES, &AllScripts)?);
    Ok(())
}
