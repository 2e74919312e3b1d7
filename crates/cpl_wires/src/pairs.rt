// Cells, exchange cells and outlets by the pairs of pieces that they lie in.
ghost use Rattle.std.specs.Prelude.{◌≡◌, ◌<◌, ◌≤◌, length, map, IfOk};
ghost use Rattle.std.specs.List.{range_with_len};
ghost use Rattle.cpl_fixed.specs.declared.limits.TheConstants.{MOST_EXCHANGE_CELLS};
ghost use Rattle.cpl_mosaic.specs.Contacts.{cells_of};
ghost use Rattle.cpl_mosaic.specs.Cells.{cell_of};
ghost use Rattle.cpl_layout.specs.Layouts.{IsLayout};
ghost use Rattle.cpl_wires.specs.Tables.{ArePairs, pair_number, pair_key, by_pieces, row_pair, outlet_pair, same_pair};
ghost use Rattle.cpl_wires.specs.Tables.{HavePieces, HaveFacePieces, strip_key, face_strip_key, strips_by_pieces, face_strips_by_pieces};

use cpl_layout::Layout;
use cpl_mosaic::{CellId, Mosaic};
use cpl_strip::{FaceStrip, Strip};
use cpl_xgrid::{Groups, Outlet, XRow};
use std::alloc::{AllocError, Global};

// How many pieces a component has at most, and how many pairs of them there are.
const PIECES: u32 = 64;

pub(crate) const PAIRS: u32 = PIECES * PIECES;

// The number of a pair of pieces, each counted in its component.
pub(crate) fn pair_number(first: u32, second: u32) -> u32
    requires first { first < 64 }
    requires second { second < 64 }
    ensures number { result ≡ pair_number first second }
    ensures few { result < 4_096 }
{
    first * PIECES + second
}

// The cells of the air and of the surface that exchange cells are of.
pub(crate) fn row_pairs(alloc: Global, rows: &[XRow]) -> Result<Vec<(CellId, CellId)>, AllocError>
    ensures { IfOk result (λ pairs. pairs.items ≡ map row_pair rows.now) }
{
    rows.iter().map(|row| (row.air, row.other)).collect(alloc)
}

// The cells of the land and of the ocean that outlets lead from and to.
pub(crate) fn outlet_pairs(
    alloc: Global,
    outlets: &[Outlet],
) -> Result<Vec<(CellId, CellId)>, AllocError>
    ensures { IfOk result (λ pairs. pairs.items ≡ map outlet_pair outlets.now) }
{
    outlets
        .iter()
        .map(|outlet| (outlet.land, outlet.ocean))
        .collect(alloc)
}

// Each cell of a mosaic with itself, in whole order.
pub(crate) fn cell_pairs(
    alloc: Global,
    mosaic: &Mosaic,
) -> Result<Vec<(CellId, CellId)>, AllocError>
    ensures { IfOk result (λ pairs. pairs.items ≡ map (λ n. same_pair (cell_of mosaic.now.tiles n)) (range_with_len 0 (cells_of mosaic.now.tiles))) }
{
    let cells = mosaic.cells();
    let mut pairs = Vec::with_capacity(alloc, cells as usize)?;
    for n in 0..cells {
        let cell = mosaic.cell(n);
        pairs.push((cell, cell))?;
    }
    Ok(pairs)
}

// The pairs of pieces that pairs of cells lie in.
fn pair_keys(
    alloc: Global,
    one: &Layout,
    other: &Layout,
    pairs: &[(CellId, CellId)],
) -> Result<Vec<u32>, AllocError>
    requires one { IsLayout one.now }
    requires other { IsLayout other.now }
    requires pairs { ArePairs one.now.tiles other.now.tiles pairs.now }
    ensures { IfOk result (λ keys. keys.items ≡ map (pair_key one.now other.now) pairs.now) }
{
    let mut keys = Vec::with_capacity(alloc, pairs.len())?;
    for pair in pairs {
        keys.push(pair_number(one.owner(pair.0), other.owner(pair.1)))?;
    }
    Ok(keys)
}

// The numbers of pairs of cells, grouped by the pairs of pieces that they lie in, in order. It takes time linear in the pairs.
pub(crate) fn by_pieces(
    alloc: Global,
    one: &Layout,
    other: &Layout,
    pairs: &[(CellId, CellId)],
) -> Result<Groups<u32>, AllocError>
    requires one { IsLayout one.now }
    requires other { IsLayout other.now }
    requires pairs { ArePairs one.now.tiles other.now.tiles pairs.now }
    requires few { length pairs.now ≤ MOST_EXCHANGE_CELLS }
    ensures { IfOk result (λ groups. groups ≡ by_pieces one.now other.now pairs.now) }
{
    let keys = pair_keys(alloc, one, other, pairs)?;
    Groups::by_key(alloc, &keys, PAIRS)
}

// The pairs of pieces of strips.
fn strip_keys(alloc: Global, strips: &[Strip]) -> Result<Vec<u32>, AllocError>
    requires { HavePieces strips.now }
    ensures { IfOk result (λ keys. keys.items ≡ map strip_key strips.now) }
{
    let mut keys = Vec::with_capacity(alloc, strips.len())?;
    for strip in strips {
        keys.push(pair_number(strip.from, strip.to))?;
    }
    Ok(keys)
}

// The numbers of strips, by their pieces.
pub(crate) fn strips_by_pieces(alloc: Global, strips: &[Strip]) -> Result<Groups<u32>, AllocError>
    requires pieces { HavePieces strips.now }
    requires few { length strips.now ≤ MOST_EXCHANGE_CELLS }
    ensures { IfOk result (λ groups. groups ≡ strips_by_pieces strips.now) }
{
    let keys = strip_keys(alloc, strips)?;
    Groups::by_key(alloc, &keys, PAIRS)
}

// The pairs of pieces of face strips.
fn face_strip_keys(alloc: Global, strips: &[FaceStrip]) -> Result<Vec<u32>, AllocError>
    requires { HaveFacePieces strips.now }
    ensures { IfOk result (λ keys. keys.items ≡ map face_strip_key strips.now) }
{
    let mut keys = Vec::with_capacity(alloc, strips.len())?;
    for strip in strips {
        keys.push(pair_number(strip.from, strip.to))?;
    }
    Ok(keys)
}

// The numbers of face strips, by their pieces.
pub(crate) fn face_strips_by_pieces(
    alloc: Global,
    strips: &[FaceStrip],
) -> Result<Groups<u32>, AllocError>
    requires pieces { HaveFacePieces strips.now }
    requires few { length strips.now ≤ MOST_EXCHANGE_CELLS }
    ensures { IfOk result (λ groups. groups ≡ face_strips_by_pieces strips.now) }
{
    let keys = face_strip_keys(alloc, strips)?;
    Groups::by_key(alloc, &keys, PAIRS)
}
