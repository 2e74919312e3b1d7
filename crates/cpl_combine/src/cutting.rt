// What a window has of a state, as the bytes of a piece.
ghost use Rattle.std.specs.Prelude.{◌≡◌, ◌<◌, ◌++◌, ◌∷◌, [], OnOk, IfOk, length};
ghost use Rattle.cpl_restart.specs.Numbers.{numbers_bytes, section_bytes};
ghost use Rattle.cpl_restart.specs.RestartBytes.{section_of, sections_of};
ghost use Rattle.cpl_xgrid.specs.Grids.{IsGrid};
ghost use Rattle.cpl_state.specs.States.{HasLengths};
ghost use Rattle.cpl_combine.specs.Cuts.{all_gathered, component_number, head_of, piece_bytes};
ghost use Rattle.cpl_combine.specs.Lists.{lists_of};
ghost use Rattle.cpl_combine.specs.Windows.{IsWindow};
ghost use Rattle.std.specs.List.{flat_map};
ghost use Rattle.cpl_combine.specs.Places.{of_component, section_count, sections_before};

use crate::Window;
use crate::bytes::{WORD, write_numbers, write_part};
use crate::places::{Places, places_of};
use cpl_faces::faces;
use cpl_fixed::{Component, List};
use cpl_state::Whole;
use cpl_xgrid::Grid;
use std::alloc::{AllocError, Global};

// The first eight bytes of a piece.
const PIECE_MARK: &[u8; WORD] = b"CPLPCE01";

// The number of a component in a piece.
fn component_number(component: Component) -> u32
    ensures { result ≡ component_number component }
{
    match component {
        Component::Atmos => 0,
        Component::Land => 1,
        Component::Ice | Component::Ocean => 2,
    }
}

// How many sections come before a component's, and how many it has.
fn sections_of(component: Component) -> (usize, usize)
    ensures before { result.0 ≡ sections_before component }
    ensures count { result.1 ≡ section_count component }
{
    match component {
        Component::Atmos => (0, 3),
        Component::Land => (3, 2),
        Component::Ice | Component::Ocean => (5, 9),
    }
}

// A section of a state, counted from 0.
fn section(whole: &Whole, section: usize) -> &List<i64>
    requires { section < 14 }
    ensures { result.now ≡ section_of (sections_of whole.now) section }
{
    match section {
        0 => &whole.air_heat,
        1 => &whole.air_vapour,
        2 => &whole.air_sun,
        3 => &whole.land_heat,
        4 => &whole.land_water,
        5 => &whole.parts,
        6 => &whole.ice,
        7 => &whole.ice_heat,
        8 => &whole.water,
        9 => &whole.heat,
        10 => &whole.salt,
        11 => &whole.faces,
        12 => &whole.to_ice,
        _ => &whole.to_ocean,
    }
}

// Appends the seven numbers at the head of a piece.
fn write_head(out: &mut Vec<u8>, window: Window, elapsed: i64) -> Result<(), AllocError>
    ensures { OnOk result (out.new.items ≡ out.old.items ++ numbers_bytes (head_of window elapsed)) }
{
    let head = [
        i64::from(component_number(window.component)),
        i64::from(window.tile),
        i64::from(window.i0),
        i64::from(window.nx),
        i64::from(window.j0),
        i64::from(window.ny),
        elapsed,
    ];
    write_numbers(out, &head)
}

// Appends what a window has of each section of its component.
fn write_parts(
    out: &mut Vec<u8>,
    whole: &Whole,
    places: &Places,
    component: Component,
) -> Result<(), AllocError>
    ensures { OnOk result (out.new.items ≡ out.old.items ++ flat_map section_bytes (all_gathered (of_component component (sections_of whole.now)) (of_component component (lists_of places.now)))) }
{
    let (before, count) = sections_of(component);
    for k in before..before + count {
        write_part(out, section(whole, k).as_slice(), places.of(k))?;
    }
    Ok(())
}

/// What a window has of a state, as the bytes of a piece.
///
/// All numbers are eight bytes, the highest first, in two's complement. A piece is the mark `CPLPCE01`; seven numbers: 0 for the
/// air, 1 for the land and 2 for the ocean, then the window's `tile`, `i0`, `nx`, `j0` and `ny`, and the elapsed seconds; and
/// the sections of the component, as they stand in a restart of version 1, with the numbers of the window's cells alone, in
/// whole order. A face belongs to the window that has its first side. The format is defined by this project.
///
/// Its time is linear in the window's numbers and the ocean's cells. It takes memory for the ocean's faces, for places in the
/// sections, and for the bytes.
pub fn cut(alloc: Global, grid: &Grid, whole: &Whole, window: Window) -> Result<Vec<u8>, AllocError>
    requires grid { IsGrid grid.now }
    requires lengths { HasLengths grid.now whole.now }
    requires window { IsWindow grid.now window }
    ensures spelled { IfOk result (λ bytes. bytes.items ≡ piece_bytes grid.now whole.now window) }
{
    let faces = faces(alloc, &grid.ocean.mosaic)?;
    let places = places_of(alloc, grid, &faces, window)?;
    let mut out = Vec::new(alloc);
    out.extend_from_slice(PIECE_MARK)?;
    write_head(&mut out, window, whole.elapsed)?;
    write_parts(&mut out, whole, &places, window.component)?;
    Ok(out)
}
