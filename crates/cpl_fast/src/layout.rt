// Tables that are stored part by part: entry 0 of all items first, then entry 1 of all, and so on.
ghost use Rattle.std.specs.Prelude.{◌≡◌, ◌<◌, ◌^◌};
ghost use Rattle.cpl_fast.specs.Places.{place_in};

// Where entry k of item n stands in a table of so many items. Most categories are empty and passed over: so the entries that are read
// lie together.
#[inline]
pub(crate) fn place_in(count: usize, n: usize, k: usize) -> usize
    requires { place_in count n k < 2 ^ 64 }
    ensures { result ≡ place_in count n k }
{
    k * count + n
}
