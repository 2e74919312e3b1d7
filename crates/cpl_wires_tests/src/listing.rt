// A plain listing of what pieces share: every exchange cell, outlet, cell, hole and face, one after the other, each by its pieces.
ghost use Rattle.std.specs.Bool.{OnTrue};
ghost use Rattle.cpl_mosaic.specs.Sides.{IsCellOf};

use cpl_fixed::Component;
use cpl_fixed::Component::{Atmos, Ice, Land, Ocean};
use cpl_layout::{Layout, Piece};
use cpl_mosaic::Side::{E, N, S, W};
use cpl_mosaic::{CellId, Mosaic, Side};
use cpl_wires::{Exchanges, Purpose};
use cpl_xgrid::Surface;
use std::alloc::{AllocError, Global};

const SIDES: [Side; 4] = [W, E, S, N];

// The place of a cell in a piece, by columns and rows, if it lies there.
fn place(piece: &Piece, cell: CellId) -> Option<(u32, u32)> {
    if cell.tile != piece.tile || cell.i < piece.i0 || cell.j < piece.j0 {
        return None;
    }
    let (i, j) = (cell.i - piece.i0, cell.j - piece.j0);
    if i < piece.nx && j < piece.ny {
        Some((i, j))
    } else {
        None
    }
}

// The piece of a component that a cell lies in, counted among those of all components.
fn owner(exchanges: &Exchanges, component: Component, cell: CellId) -> u32 {
    let layout: &Layout = exchanges.layout(component);
    for p in 0..layout.pieces() {
        if place(&layout.piece(p), cell).is_some() {
            return exchanges.base(component).wrapping_add(p);
        }
    }
    u32::MAX
}

// Whether a side of a cell is along the edge of its piece.
fn is_along_edge(exchanges: &Exchanges, component: Component, cell: CellId, side: Side) -> bool {
    let layout: &Layout = exchanges.layout(component);
    for p in 0..layout.pieces() {
        let piece = layout.piece(p);
        if let Some((i, j)) = place(&piece, cell) {
            return match side {
                Side::W => i == 0,
                Side::E => i.wrapping_add(1) == piece.nx,
                Side::S => j == 0,
                Side::N => j.wrapping_add(1) == piece.ny,
            };
        }
    }
    false
}

fn is_inside(mosaic: &Mosaic, cell: CellId) -> bool
    ensures { OnTrue result (IsCellOf mosaic.now.tiles cell) }
{
    match mosaic.tiles().get(cell.tile as usize) {
        Some(tile) => cell.i < tile.nx && cell.j < tile.ny,
        None => false,
    }
}

// The cell that some steps out of a side lead to, and the side that they enter by.
fn walk(mosaic: &Mosaic, cell: CellId, side: Side, depth: u32) -> Option<(CellId, Side)> {
    if depth > 0 && is_inside(mosaic, cell) {
        mosaic.walk(cell, side, depth)
    } else {
        None
    }
}

/// The pieces that something is handed from and to.
pub(crate) type Ends = (u32, u32);

fn mosaic_of(exchanges: &Exchanges, component: Component) -> &Mosaic {
    match component {
        Component::Atmos => &exchanges.grid().air.mosaic,
        Component::Land => &exchanges.grid().land.mosaic,
        Component::Ice | Component::Ocean => &exchanges.grid().ocean.mosaic,
    }
}

// Adds the holes of a cell's piece beside the cell, each by the piece that has the cell that belongs there.
fn add_holes(
    exchanges: &Exchanges,
    component: Component,
    depth: u32,
    cell: CellId,
    found: &mut Vec<Ends>,
) -> Result<(), AllocError> {
    for side in SIDES {
        if is_along_edge(exchanges, component, cell, side) {
            if let Some((met, _)) = walk(mosaic_of(exchanges, component), cell, side, depth) {
                let giver = owner(exchanges, component, met);
                found.push((giver, owner(exchanges, component, cell)))?;
            }
        }
    }
    Ok(())
}

// The holes of all pieces of a component that lie so far outside.
fn add_all_holes(
    exchanges: &Exchanges,
    component: Component,
    depth: u32,
    found: &mut Vec<Ends>,
) -> Result<(), AllocError> {
    let mosaic = mosaic_of(exchanges, component);
    for n in 0..mosaic.cells() {
        add_holes(exchanges, component, depth, mosaic.cell(n), found)?;
    }
    Ok(())
}

const fn rank(side: Side) -> u32 {
    match side {
        Side::W => 0,
        Side::E => 1,
        Side::S => 2,
        Side::N => 3,
    }
}

// Whether a side comes before another: by tile, row and column, then W, E, S, N.
fn comes_before(cell: CellId, side: Side, other: CellId, entered: Side) -> bool {
    (cell.tile, cell.j, cell.i, rank(side)) < (other.tile, other.j, other.i, rank(entered))
}

// Adds the faces of a cell along the edge of its piece whose other side comes first, each by the piece that has that side.
fn add_faces(exchanges: &Exchanges, cell: CellId, found: &mut Vec<Ends>) -> Result<(), AllocError> {
    for side in SIDES {
        if is_along_edge(exchanges, Ocean, cell, side) {
            match walk(&exchanges.grid().ocean.mosaic, cell, side, 1) {
                Some((met, entered)) if comes_before(met, entered, cell, side) => {
                    let giver = owner(exchanges, Ocean, met);
                    found.push((giver, owner(exchanges, Ocean, cell)))?;
                }
                _ => {}
            }
        }
    }
    Ok(())
}

/// The faces along the edges of the ocean's pieces.
pub(crate) fn faces(alloc: Global, exchanges: &Exchanges) -> Result<Vec<Ends>, AllocError> {
    let mut found = Vec::new(alloc);
    let mosaic = &exchanges.grid().ocean.mosaic;
    for n in 0..mosaic.cells() {
        add_faces(exchanges, mosaic.cell(n), &mut found)?;
    }
    Ok(found)
}

// The pieces of the air and of the surface that the exchange cells of a list lie in.
fn rows(
    alloc: Global,
    exchanges: &Exchanges,
    list: Surface,
    other: Component,
) -> Result<Vec<Ends>, AllocError> {
    let mut found = Vec::new(alloc);
    for row in exchanges.grid().xgrid.rows(list) {
        let air = owner(exchanges, Atmos, row.air);
        found.push((air, owner(exchanges, other, row.other)))?;
    }
    Ok(found)
}

// The pieces that the outlets lead from and to.
fn outlets(alloc: Global, exchanges: &Exchanges) -> Result<Vec<Ends>, AllocError> {
    let mut found = Vec::new(alloc);
    for outlet in exchanges.grid().xgrid.outlets() {
        let land = owner(exchanges, Land, outlet.land);
        found.push((land, owner(exchanges, Ice, outlet.ocean)))?;
    }
    Ok(found)
}

// The pieces of the ice and of the ocean that the cells lie in.
fn cells(alloc: Global, exchanges: &Exchanges) -> Result<Vec<Ends>, AllocError> {
    let mut found = Vec::new(alloc);
    let mosaic = &exchanges.grid().ocean.mosaic;
    for n in 0..mosaic.cells() {
        let cell = mosaic.cell(n);
        let ice = owner(exchanges, Ice, cell);
        found.push((ice, owner(exchanges, Ocean, cell)))?;
    }
    Ok(found)
}

// The other way round.
fn turned(alloc: Global, found: Vec<Ends>) -> Result<Vec<Ends>, AllocError> {
    found.iter().map(|(from, to)| (*to, *from)).collect(alloc)
}

fn halos(
    alloc: Global,
    exchanges: &Exchanges,
    component: Component,
    width: u32,
) -> Result<Vec<Ends>, AllocError> {
    let mut found = Vec::new(alloc);
    for steps in 0..width {
        add_all_holes(exchanges, component, steps + 1, &mut found)?;
    }
    Ok(found)
}

fn sums(alloc: Global, exchanges: &Exchanges) -> Result<Vec<Ends>, AllocError> {
    let mut found = Vec::new(alloc);
    for piece in 0..exchanges.piece_count() {
        found.push((piece, 0))?;
    }
    Ok(found)
}

/// All that edges of a purpose carry numbers of, by the pieces that post and take, in the order of the file or in whole order.
pub(crate) fn listed(
    alloc: Global,
    exchanges: &Exchanges,
    purpose: Purpose,
) -> Result<Vec<Ends>, AllocError> {
    match purpose {
        Purpose::AirHalo => halos(alloc, exchanges, Atmos, 1),
        Purpose::LandToAir => turned(alloc, rows(alloc, exchanges, Surface::Land, Land)?),
        Purpose::IceToAir => turned(alloc, rows(alloc, exchanges, Surface::Ocean, Ice)?),
        Purpose::AirToLand => rows(alloc, exchanges, Surface::Land, Land),
        Purpose::AirToIce => rows(alloc, exchanges, Surface::Ocean, Ice),
        Purpose::LandToIce => outlets(alloc, exchanges),
        Purpose::IceToOcean => cells(alloc, exchanges),
        Purpose::OceanToIce => turned(alloc, cells(alloc, exchanges)?),
        Purpose::OceanHalo => halos(alloc, exchanges, Ocean, 2),
        Purpose::Sums => sums(alloc, exchanges),
    }
}
