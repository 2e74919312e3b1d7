// Numbers of a field, taken over from another one.
ghost use Rattle.std.specs.Prelude.{◌≡◌, ◌<◌, ◌≤◌};
ghost use Rattle.cpl_field.specs.Spots.{IsSameShape, edge_of, number_at};
ghost use Rattle.cpl_ocean.specs.Columns.{Fills, IsAtDepth, IsCell, IsCellBefore, IsHoleBefore};
ghost use Rattle.cpl_ocean.specs.Pieces.{LoadsCells, LoadsHoles};

use cpl_field::Field;
use cpl_mosaic::Side;

// The cells of row j.
fn load_row(from: &Field, nx: u32, j: u32, to: &mut Field)
    requires columns { from.now.nx ≡ nx }
    requires row { j < from.now.ny }
    requires shape { IsSameShape from.now to.old }
    ensures { Fills from.now (number_at from.now) (IsCellBefore nx j) to.old to.new }
{
    for i in 0..nx {
        to.set(i, j, from.get(i, j));
    }
}

/// Sets the cells of a field to those of another one.
pub(crate) fn load_cells(from: &Field, nx: u32, ny: u32, to: &mut Field)
    requires columns { from.now.nx ≡ nx }
    requires rows { from.now.ny ≡ ny }
    requires shape { IsSameShape from.now to.old }
    ensures { LoadsCells from.now to.old to.new }
{
    for j in 0..ny {
        load_row(from, nx, j, to);
    }
}

// The holes of one depth beyond one side of the piece.
fn load_side(from: &Field, side: Side, depth: u32, count: u32, to: &mut Field)
    requires some { 1 ≤ depth }
    requires depth { depth ≤ from.now.width }
    requires count { count ≡ edge_of from.now side }
    requires shape { IsSameShape from.now to.old }
    ensures { Fills from.now (number_at from.now) (IsHoleBefore side depth count) to.old to.new }
{
    for at in 0..count {
        to.set_halo(side, at, depth, from.halo(side, at, depth));
    }
}

// All holes of one depth.
fn load_depth(from: &Field, nx: u32, ny: u32, depth: u32, to: &mut Field)
    requires columns { from.now.nx ≡ nx }
    requires rows { from.now.ny ≡ ny }
    requires some { 1 ≤ depth }
    requires depth { depth ≤ from.now.width }
    requires shape { IsSameShape from.now to.old }
    ensures { Fills from.now (number_at from.now) (IsAtDepth depth) to.old to.new }
{
    load_side(from, Side::W, depth, ny, to);
    load_side(from, Side::E, depth, ny, to);
    load_side(from, Side::S, depth, nx, to);
    load_side(from, Side::N, depth, nx, to);
}

/// Sets the holes of a field two cells wide to those of another one.
pub(crate) fn load_holes(from: &Field, nx: u32, ny: u32, to: &mut Field)
    requires columns { from.now.nx ≡ nx }
    requires rows { from.now.ny ≡ ny }
    requires width { from.now.width ≡ 2 }
    requires shape { IsSameShape from.now to.old }
    ensures { LoadsHoles from.now to.old to.new }
{
    load_depth(from, nx, ny, 1, to);
    load_depth(from, nx, ny, 2, to);
}
