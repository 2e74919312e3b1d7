// The rules of lawful states, each with its first fault.
ghost use Rattle.std.specs.Prelude.{◌≡◌, ℕ, ◌+◌, ◌<◌, ◌≤◌, ◌^◌, ◌*◌, ◌∷◌, [], length};
ghost use Rattle.cpl_fixed.specs.Totals.{total_of};
ghost use Rattle.cpl_faces.specs.Faces.{AreFaces};
ghost use Rattle.cpl_xgrid.specs.Grids.{IsGrid};
ghost use Rattle.cpl_xgrid.specs.Lists.{IsMesh};
ghost use Rattle.cpl_restart.specs.Counts.{AreShort};
ghost use Rattle.cpl_restart.specs.Lawful.{IsFaceOn, are_other_parts, is_dry, is_left, is_walled, is_wrong, judged, no_negatives, no_stray, no_strays, right_faces, spot_at, spread, whole_parts};
ghost use Rattle.cpl_restart.specs.Sections.{Reads, no_negative};
ghost use Rattle.cpl_state.specs.States.{HasLengths, cells_in, ocean_faces};

use crate::sections::refuse_negative;
use crate::start_error::StartError;
use cpl_faces::Face;
use cpl_fixed::{MOST_FACE, PARTS};
use cpl_mosaic::Mesh;
use cpl_state::Whole;
use cpl_xgrid::Grid;

// The elapsed seconds are section 0.
fn refuse_negative_elapsed(whole: &Whole) -> Result<(), StartError>
    ensures { Reads (λ x. x) result (no_negative 0 (whole.now.elapsed ∷ [])) }
{
    if whole.elapsed < 0 {
        return Err(StartError::Negative(0, 0));
    }
    Ok(())
}

// `Negative` with the first negative number outside the faces.
fn refuse_negatives(whole: &Whole) -> Result<(), StartError>
    requires { AreShort whole.now }
    ensures { Reads (λ x. x) result (no_negatives whole.now) }
{
    refuse_negative_elapsed(whole)?;
    refuse_negative(1, whole.air_heat.as_slice())?;
    refuse_negative(2, whole.air_vapour.as_slice())?;
    refuse_negative(3, whole.air_sun.as_slice())?;
    refuse_negative(4, whole.land_heat.as_slice())?;
    refuse_negative(5, whole.land_water.as_slice())?;
    refuse_negative(6, whole.parts.as_slice())?;
    refuse_negative(7, whole.ice.as_slice())?;
    refuse_negative(8, whole.ice_heat.as_slice())?;
    refuse_negative(9, whole.water.as_slice())?;
    refuse_negative(10, whole.heat.as_slice())?;
    refuse_negative(11, whole.salt.as_slice())?;
    refuse_negative(13, whole.to_ice.as_slice())?;
    refuse_negative(14, whole.to_ocean.as_slice())
}

// The sum of numbers, exactly.
fn total(numbers: &[i64]) -> i128
    requires { length numbers.now ≤ 2 ^ 24 }
    ensures { result ≡ total_of numbers.now }
{
    let mut sum = 0i128;
    for number in numbers {
        sum += i128::from(*number);
    }
    sum
}

// Whether a cell with water has these parts, which have another sum than 65536.
fn are_other_parts(ocean: &Mesh, cell: usize, parts: &[i64]) -> bool
    requires mesh { IsMesh ocean.now }
    requires cell { cell < cells_in ocean.now }
    requires few { length parts.now ≤ 2 ^ 24 }
    ensures { result ≡ are_other_parts ocean.now cell parts.now }
{
    !is_dry(ocean, cell) && total(parts) != i128::from(PARTS)
}

// `Parts` with the least cell with water whose parts, of which each cell has `width`, have another sum.
fn refuse_other_parts(ocean: &Mesh, width: usize, parts: &[i64]) -> Result<(), StartError>
    requires mesh { IsMesh ocean.now }
    requires count { length parts.now ≡ width * cells_in ocean.now }
    requires few { length parts.now ≤ 2 ^ 24 }
    ensures { Reads (λ x. x) result (whole_parts ocean.now width parts.now) }
{
    let mut rest = parts;
    for n in 0..ocean.mosaic.cells() {
        let (front, behind) = rest.split_at(width);
        if are_other_parts(ocean, n as usize, front) {
            return Err(StartError::Parts(n));
        }
        rest = behind;
    }
    Ok(())
}

// The cell of a number, and which of the cell's numbers it is.
#[derive(Clone, Copy)]
pub(crate) struct Spot {
    pub(crate) cell: usize,
    pub(crate) within: usize,
}

impl Spot {
    // The spot of the next number, where each of this many cells has `width` numbers, over and over.
    fn next(self, width: usize, cells: usize) -> Spot
        requires cell { self.cell < cells }
        requires within { self.within < width }
        ensures { (place : ℕ) → self ≡ spot_at width cells place → result ≡ spot_at width cells (place + 1) }
    {
        if self.within + 1 < width {
            Spot {
                cell: self.cell,
                within: self.within + 1,
            }
        } else if self.cell + 1 < cells {
            Spot {
                cell: self.cell + 1,
                within: 0,
            }
        } else {
            Spot { cell: 0, within: 0 }
        }
    }
}

// Whether a cell has no area.
fn is_dry(mesh: &Mesh, cell: usize) -> bool
    requires mesh { IsMesh mesh.now }
    requires cell { cell < cells_in mesh.now }
    ensures { result ≡ is_dry mesh.now cell }
{
    mesh.area.as_slice()[cell] == 0
}

// Whether this is a number other than 0 of a cell without an area.
fn is_left(mesh: &Mesh, cell: usize, number: i64) -> bool
    requires mesh { IsMesh mesh.now }
    requires cell { cell < cells_in mesh.now }
    ensures { result ≡ is_left mesh.now cell number }
{
    number != 0 && is_dry(mesh, cell)
}

// `Dry` with the first number that isn't 0 of a cell without an area, where each cell has `width` numbers, over and over.
fn refuse_strays(section: u32, mesh: &Mesh, width: usize, numbers: &[i64]) -> Result<(), StartError>
    requires mesh { IsMesh mesh.now }
    requires width { 1 ≤ width }
    requires few { length numbers.now ≤ 2 ^ 24 }
    ensures { Reads (λ x. x) result (no_stray (spread section mesh.now width numbers.now)) }
{
    let cells = mesh.mosaic.cells() as usize;
    let mut spot = Spot { cell: 0, within: 0 };
    for (place, number) in numbers.iter().enumerate() {
        if is_left(mesh, spot.cell, *number) {
            return Err(StartError::Dry(section, place as u32));
        }
        spot = spot.next(width, cells);
    }
    Ok(())
}

// `Dry` with the first number that isn't 0 of a cell of the land or the ocean without an area, the faces aside.
fn refuse_all_strays(grid: &Grid, whole: &Whole) -> Result<(), StartError>
    requires grid { IsGrid grid.now }
    requires short { AreShort whole.now }
    ensures { Reads (λ x. x) result (no_strays grid.now whole.now) }
{
    let categories = grid.column.categories as usize;
    let ocean = &grid.ocean;
    refuse_strays(4, &grid.land, 1, whole.land_heat.as_slice())?;
    refuse_strays(5, &grid.land, 1, whole.land_water.as_slice())?;
    refuse_strays(6, ocean, categories + 1, whole.parts.as_slice())?;
    refuse_strays(7, ocean, categories, whole.ice.as_slice())?;
    refuse_strays(8, ocean, categories, whole.ice_heat.as_slice())?;
    refuse_strays(9, ocean, 1, whole.water.as_slice())?;
    refuse_strays(10, ocean, 1, whole.heat.as_slice())?;
    refuse_strays(11, ocean, 1, whole.salt.as_slice())?;
    refuse_strays(13, ocean, 5, whole.to_ice.as_slice())?;
    refuse_strays(14, ocean, 3, whole.to_ocean.as_slice())
}

// Whether a cell of the face has no area.
fn is_walled(ocean: &Mesh, face: Face) -> bool
    requires mesh { IsMesh ocean.now }
    requires face { IsFaceOn ocean.now face }
    ensures { result ≡ is_walled ocean.now face }
{
    is_dry(ocean, face.first as usize) || is_dry(ocean, face.second as usize)
}

// Whether the number of a face is out of range, or isn't 0 where a cell has no area.
fn is_wrong(ocean: &Mesh, face: Face, number: i64) -> bool
    requires mesh { IsMesh ocean.now }
    requires face { IsFaceOn ocean.now face }
    ensures { result ≡ is_wrong (is_walled ocean.now face) number }
{
    number < -MOST_FACE || number > MOST_FACE || (number != 0 && is_walled(ocean, face))
}

// `Wall` with the first number of the faces, layer by layer, that is wrong.
fn refuse_wrong_faces(ocean: &Mesh, faces: &[Face], numbers: &[i64]) -> Result<(), StartError>
    requires mesh { IsMesh ocean.now }
    requires faces { AreFaces ocean.now.mosaic faces.now }
    requires some { 0 < length numbers.now → 0 < length faces.now }
    requires few { length numbers.now ≤ 2 ^ 24 }
    ensures { Reads (λ x. x) result (right_faces ocean.now faces.now numbers.now) }
{
    // The contract of `cells` has the numbers of the cells, and their mates.
    let _cells = ocean.mosaic.cells();
    let mut spot = Spot { cell: 0, within: 0 };
    for (place, number) in numbers.iter().enumerate() {
        if is_wrong(ocean, faces[spot.cell], *number) {
            return Err(StartError::Wall(place as u32));
        }
        spot = spot.next(1, faces.len());
    }
    Ok(())
}

/// The first rule of lawful states that a state of the grid's lengths breaks: `Negative`, `Parts`, `Dry` or `Wall`.
pub(crate) fn judge(grid: &Grid, faces: &[Face], whole: &Whole) -> Result<(), StartError>
    requires grid { IsGrid grid.now }
    requires faces { faces.now ≡ ocean_faces grid.now }
    requires are { AreFaces grid.now.ocean.mosaic faces.now }
    requires lengths { HasLengths grid.now whole.now }
    requires short { AreShort whole.now }
    ensures { Reads (λ x. x) result (judged grid.now whole.now) }
{
    refuse_negatives(whole)?;
    let parts = grid.column.categories as usize + 1;
    refuse_other_parts(&grid.ocean, parts, whole.parts.as_slice())?;
    refuse_all_strays(grid, whole)?;
    refuse_wrong_faces(&grid.ocean, faces, whole.faces.as_slice())
}
