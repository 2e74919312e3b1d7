// The part of one field in a strip's buffer.
ghost use Rattle.std.specs.Prelude.{◌≡◌, ℕ, ◌+◌, ◌<◌, ◌≤◌, ◌⊎◌, length, pos, slice_index_or};
ghost use Rattle.cpl_field.specs.Spots.{CellAt, HoleAt, IsSpot, number_at};
ghost use Rattle.cpl_group.specs.Parts.{Takes, Fills, place_of, hole_of};

use cpl_field::Field;
use cpl_strip::Hole;

/// Puts a field's numbers at some places into a list, from an index on.
pub(crate) fn gather(places: &[(u32, u32)], field: &Field, from: usize, list: &mut [i64])
    requires cells { (k : ℕ) → k < length places.now → IsSpot field.now (place_of places.now k) }
    requires room { from + length places.now ≤ length list.old }
    ensures { Takes places.now field.now from list.old list.new }
{
    for (k, (i, j)) in places.iter().enumerate() {
        list[from + k] = field.get(*i, *j);
    }
}

/// Puts the numbers of a list, from an index on, into some holes of a field.
pub(crate) fn scatter(holes: &[Hole], field: &mut Field, from: usize, list: &[i64])
    requires holes { (k : ℕ) → k < length holes.now → IsSpot field.old (hole_of holes.now k) }
    requires once { (k l : ℕ) → k < length holes.now → l < length holes.now → hole_of holes.now k ≡ hole_of holes.now l → k ≡ l }
    requires room { from + length holes.now ≤ length list.now }
    ensures { Fills holes.now from list.now field.old field.new }
{
    for (k, hole) in holes.iter().enumerate() {
        field.set_halo(hole.side, hole.at, hole.depth, list[from + k]);
    }
}
