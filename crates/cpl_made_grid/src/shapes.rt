// The mosaics of made grids.
ghost use Rattle.std.specs.Prelude.{◌≡◌, ◌<◌, ◌≤◌, IfOk};
ghost use Rattle.cpl_mosaic.specs.Contacts.{IsMosaic};
ghost use Rattle.cpl_made_grid.specs.declared.shapes.TheConstants.{MOST_SIZE};
ghost use Rattle.cpl_made_grid.specs.Shares.{IsSized};
ghost use Rattle.cpl_made_grid.specs.Shapes.{whole_edge, edges_joined, sphere_tiles, sphere_contacts, sphere, air_count, ocean_columns, ocean_rows, ocean_tiles, ocean_contacts, ocean_mosaic, ocean_count};

use cpl_mosaic::{Contact, Mosaic, MosaicError, Side, Span, Tile};
use std::alloc::{AllocError, Global};

/// The greatest size of a made input.
pub const MOST_SIZE: u32 = 64;

// All sides along an edge of a tile.
fn whole_edge(tile: u32, side: Side, sides: u32) -> Span
    requires { 1 ≤ sides }
    ensures { result ≡ whole_edge tile side sides }
{
    Span {
        tile,
        side,
        lo: 0,
        hi: sides - 1,
    }
}

// Two edges of equal length, joined.
fn edges_joined(
    sides: u32,
    tile: u32,
    side: Side,
    other: u32,
    other_side: Side,
    flip: bool,
) -> Contact
    requires { 1 ≤ sides }
    ensures { result ≡ edges_joined sides tile side other other_side flip }
{
    Contact {
        first: whole_edge(tile, side, sides),
        second: whole_edge(other, other_side, sides),
        flip,
    }
}

// The contacts of a cubed sphere: each of the 24 edges stands in one.
#[tactic(auto, unfolding(crate::specs::Shapes::sphere_contacts))]
fn sphere_contacts(size: u32) -> [Contact; 12]
    requires { 1 ≤ size }
    ensures { result ≡ sphere_contacts size }
{
    [
        edges_joined(size, 0, Side::E, 1, Side::W, false),
        edges_joined(size, 0, Side::N, 2, Side::W, true),
        edges_joined(size, 0, Side::W, 4, Side::N, true),
        edges_joined(size, 0, Side::S, 5, Side::N, false),
        edges_joined(size, 1, Side::N, 2, Side::S, false),
        edges_joined(size, 1, Side::E, 3, Side::S, true),
        edges_joined(size, 1, Side::S, 5, Side::E, true),
        edges_joined(size, 2, Side::E, 3, Side::W, false),
        edges_joined(size, 2, Side::N, 4, Side::W, true),
        edges_joined(size, 3, Side::N, 4, Side::S, false),
        edges_joined(size, 3, Side::E, 5, Side::S, true),
        edges_joined(size, 4, Side::E, 5, Side::W, false),
    ]
}

// The tiles of a cubed sphere.
#[tactic(auto, unfolding(crate::specs::Shapes::sphere_tiles))]
fn sphere_tiles(size: u32) -> [Tile; 6]
    ensures { result ≡ sphere_tiles size }
{
    [Tile { nx: size, ny: size }; 6]
}

// Tiles and contacts that keep the rules, as a mosaic.
fn lawful_mosaic(alloc: Global, tiles: &[Tile], contacts: &[Contact]) -> Result<Mosaic, AllocError>
    requires { IsMosaic tiles.now contacts.now }
    ensures { IfOk result (λ mosaic. mosaic ≡ record { tiles = tiles.now; contacts = contacts.now }) }
{
    match Mosaic::new(alloc, tiles, contacts) {
        Ok(mosaic) => Ok(mosaic),
        Err(MosaicError::Memory) => Err(AllocError),
        Err(_) => unreachable!(),
    }
}

// The cubed sphere of a size.
pub(crate) fn sphere(alloc: Global, size: u32) -> Result<Mosaic, AllocError>
    requires { IsSized size }
    ensures { IfOk result (λ mosaic. mosaic ≡ sphere size) }
{
    lawful_mosaic(alloc, &sphere_tiles(size), &sphere_contacts(size))
}

// How many cells it has.
#[tactic(auto, unfolding(crate::specs::Shapes::air_count))]
pub(crate) fn air_count(size: u32) -> u32
    requires { size ≤ MOST_SIZE }
    ensures { result ≡ air_count size }
{
    6 * (size * size)
}

// The columns and the rows of the ocean's tile.
fn ocean_columns(size: u32) -> u32
    requires { size ≤ MOST_SIZE }
    ensures { result ≡ ocean_columns size }
{
    6 * size + 72
}

fn ocean_rows(size: u32) -> u32
    requires { size ≤ MOST_SIZE }
    ensures { result ≡ ocean_rows size }
{
    4 * size + 8
}

// The contacts of the ocean's tile: it is cyclic, and its northern edge is folded.
#[tactic(auto, unfolding(crate::specs::Shapes::ocean_contacts))]
fn ocean_contacts(size: u32) -> [Contact; 2]
    requires { size ≤ MOST_SIZE }
    ensures { result ≡ ocean_contacts size }
{
    [
        edges_joined(ocean_rows(size), 0, Side::W, 0, Side::E, false),
        edges_joined(ocean_columns(size), 0, Side::N, 0, Side::N, true),
    ]
}

#[tactic(auto, unfolding(crate::specs::Shapes::ocean_tiles))]
fn ocean_tiles(size: u32) -> [Tile; 1]
    requires { size ≤ MOST_SIZE }
    ensures { result ≡ ocean_tiles size }
{
    [Tile {
        nx: ocean_columns(size),
        ny: ocean_rows(size),
    }]
}

// The ocean's mosaic of a size.
pub(crate) fn ocean_mosaic(alloc: Global, size: u32) -> Result<Mosaic, AllocError>
    requires { IsSized size }
    ensures { IfOk result (λ mosaic. mosaic ≡ ocean_mosaic size) }
{
    lawful_mosaic(alloc, &ocean_tiles(size), &ocean_contacts(size))
}

// How many cells it has.
#[tactic(auto, unfolding(crate::specs::Shapes::ocean_count))]
pub(crate) fn ocean_count(size: u32) -> u32
    requires { size ≤ MOST_SIZE }
    ensures { result ≡ ocean_count size }
{
    ocean_columns(size) * ocean_rows(size)
}
