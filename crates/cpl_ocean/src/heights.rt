// The heights of a piece's columns.
ghost use Rattle.std.specs.Prelude.{◌≡◌, ◌<◌, ◌≤◌, ℕ, length};
ghost use Rattle.cpl_fixed.specs.Amounts.{IsAmount};
ghost use Rattle.cpl_field.specs.Spots.{Spot, CellAt, HoleAt, IsSpot, IsSameShape, edge_of, number_at};
ghost use Rattle.cpl_transport.specs.Heights.{IsHeight};
ghost use Rattle.cpl_ocean.specs.Layers.{AreLayersOf};
ghost use Rattle.cpl_ocean.specs.Flows.{AreHeights, AreOceanAreas};
ghost use Rattle.cpl_ocean.specs.Sweeps.{IsBasin};
ghost use Rattle.cpl_ocean.specs.Columns.{HasColumn, IsCell, IsCellBefore, IsCellBelow, IsHoleBefore, IsNear, Fills, column_water, height_at};
ghost use Rattle.cpl_ocean.specs.Zones.{IsRead};

use crate::basin::Basin;
use crate::layer::Layer;
use crate::zone::Zone;
use cpl_field::Field;
use cpl_mosaic::Side;
use cpl_transport::height;

// The water of the column of a cell.
fn column_of_cell(area: &Field, layers: &[Layer], i: u32, j: u32) -> i64
    requires layers { AreLayersOf area.now layers.now }
    requires cell { IsSpot area.now (CellAt i j) }
    requires column { HasColumn layers.now (CellAt i j) }
    ensures { result ≡ column_water layers.now (CellAt i j) }
{
    let mut sum = 0;
    for l in 0..layers.len() {
        sum += layers[l].water(i, j);
    }
    sum
}

// The water of the column of a hole next to the piece.
fn column_of_hole(area: &Field, layers: &[Layer], side: Side, at: u32) -> i64
    requires layers { AreLayersOf area.now layers.now }
    requires hole { IsSpot area.now (HoleAt side at 1) }
    requires column { HasColumn layers.now (HoleAt side at 1) }
    ensures { result ≡ column_water layers.now (HoleAt side at 1) }
{
    let mut sum = 0;
    for l in 0..layers.len() {
        sum += layers[l].water_beside(side, at);
    }
    sum
}

// The height of the column of a cell.
fn height_of_cell(area: &Field, layers: &[Layer], i: u32, j: u32) -> i64
    requires areas { AreOceanAreas area.now }
    requires layers { AreLayersOf area.now layers.now }
    requires cell { IsSpot area.now (CellAt i j) }
    requires column { HasColumn layers.now (CellAt i j) }
    ensures value { result ≡ height_at area.now layers.now (CellAt i j) }
    ensures range { IsHeight result }
{
    let own = area.get(i, j);
    if own == 0 {
        0
    } else {
        height(column_of_cell(area, layers, i, j), own)
    }
}

// The height of the column of a hole next to the piece.
fn height_of_hole(area: &Field, layers: &[Layer], side: Side, at: u32) -> i64
    requires areas { AreOceanAreas area.now }
    requires layers { AreLayersOf area.now layers.now }
    requires hole { IsSpot area.now (HoleAt side at 1) }
    requires column { HasColumn layers.now (HoleAt side at 1) }
    ensures value { result ≡ height_at area.now layers.now (HoleAt side at 1) }
    ensures range { IsHeight result }
{
    let own = area.halo(side, at, 1);
    if own == 0 {
        0
    } else {
        height(column_of_hole(area, layers, side, at), own)
    }
}

// The heights of the cells of row j.
fn raise_row(area: &Field, nx: u32, layers: &[Layer], j: u32, heights: &mut Field)
    requires areas { AreOceanAreas area.now }
    requires columns { area.now.nx ≡ nx }
    requires row { j < area.now.ny }
    requires layers { AreLayersOf area.now layers.now }
    requires cells { (spot : Spot) → IsSpot area.now spot → IsCell spot → HasColumn layers.now spot }
    requires shape { IsSameShape area.now heights.old }
    ensures { Fills area.now (height_at area.now layers.now) (IsCellBefore nx j) heights.old heights.new }
{
    for i in 0..nx {
        heights.set(i, j, height_of_cell(area, layers, i, j));
    }
}

// The heights of all cells.
fn raise_rows(area: &Field, nx: u32, ny: u32, layers: &[Layer], heights: &mut Field)
    requires areas { AreOceanAreas area.now }
    requires columns { area.now.nx ≡ nx }
    requires rows { area.now.ny ≡ ny }
    requires layers { AreLayersOf area.now layers.now }
    requires cells { (spot : Spot) → IsSpot area.now spot → IsCell spot → HasColumn layers.now spot }
    requires shape { IsSameShape area.now heights.old }
    ensures { Fills area.now (height_at area.now layers.now) IsCell heights.old heights.new }
{
    for j in 0..ny {
        raise_row(area, nx, layers, j, heights);
    }
}

// The heights of the holes next to one side of the piece.
fn raise_side(area: &Field, layers: &[Layer], side: Side, count: u32, heights: &mut Field)
    requires areas { AreOceanAreas area.now }
    requires width { area.now.width ≡ 2 }
    requires count { count ≡ edge_of area.now side }
    requires layers { AreLayersOf area.now layers.now }
    requires holes { (spot : Spot) → IsSpot area.now spot → IsNear spot → HasColumn layers.now spot }
    requires shape { IsSameShape area.now heights.old }
    ensures { Fills area.now (height_at area.now layers.now) (IsHoleBefore side 1 count) heights.old heights.new }
{
    for at in 0..count {
        heights.set_halo(side, at, 1, height_of_hole(area, layers, side, at));
    }
}

// The heights of all holes next to the piece.
fn raise_sides(area: &Field, nx: u32, ny: u32, layers: &[Layer], heights: &mut Field)
    requires areas { AreOceanAreas area.now }
    requires width { area.now.width ≡ 2 }
    requires columns { area.now.nx ≡ nx }
    requires rows { area.now.ny ≡ ny }
    requires layers { AreLayersOf area.now layers.now }
    requires holes { (spot : Spot) → IsSpot area.now spot → IsNear spot → HasColumn layers.now spot }
    requires shape { IsSameShape area.now heights.old }
    ensures { Fills area.now (height_at area.now layers.now) IsNear heights.old heights.new }
{
    raise_side(area, layers, Side::W, ny, heights);
    raise_side(area, layers, Side::E, ny, heights);
    raise_side(area, layers, Side::S, nx, heights);
    raise_side(area, layers, Side::N, nx, heights);
}

/// The heights of the columns that are read for a zone: of all cells and, for the rim, of the holes next to the piece.
pub(crate) fn raise(basin: &mut Basin, zone: Zone, layers: &[Layer])
    requires basin { IsBasin basin.old }
    requires layers { AreLayersOf basin.old.area layers.now }
    requires columns { (spot : Spot) → IsSpot basin.old.area spot → IsRead zone spot → HasColumn layers.now spot }
    ensures basin { IsBasin basin.new }
    ensures area { basin.new.area ≡ basin.old.area }
    ensures heights { (spot : Spot) → IsSpot basin.old.area spot → IsRead zone spot
        → number_at basin.new.heights spot ≡ height_at basin.old.area layers.now spot }
{
    raise_rows(&basin.area, basin.nx, basin.ny, layers, &mut basin.heights);
    match zone {
        Zone::Inner => {}
        Zone::Rim => raise_sides(&basin.area, basin.nx, basin.ny, layers, &mut basin.heights),
    }
}
