// Values copied to exchange cells, and added up from them.
ghost use Rattle.std.specs.Prelude.{◌≡◌, ◌≤◌, ℕ, ℤ, List, length, unsigned_abs};
ghost use Rattle.std.specs.List.{sum_by};
ghost use Rattle.cpl_fixed.specs.declared.limits.TheConstants.{MOST_TOTAL};
ghost use Rattle.cpl_xput.specs.Sums.{ArePlaces, SumsFit, copied, sums_of};

// Copies the value of each place.
pub(crate) fn copy_values(places: &[u32], values: &[i64], to: &mut [i64])
    requires places { ArePlaces (length values.now) places.now }
    requires room { length to.old ≡ length places.now }
    ensures { to.new ≡ copied places.now values.now }
{
    for (k, place) in places.iter().enumerate() {
        to[k] = values[*place as usize];
    }
}

// Writes the sum of the values of each place.
pub(crate) fn add_values(places: &[u32], values: &[i64], to: &mut [i64])
    requires places { ArePlaces (length to.old) places.now }
    requires values { length values.now ≡ length places.now }
    requires sums { SumsFit places.now values.now }
    ensures { to.new ≡ sums_of (length to.old) places.now values.now }
{
    to.fill(0);
    for (k, place) in places.iter().enumerate() {
        to[*place as usize] += values[k];
    }
}

/// Where values, each without its sign, together come to at most 2^62 - 1, the sums of the values of each place fit.
pub fn sums_law()
    ensures { (places : List ℕ) (values : List ℤ) → sum_by unsigned_abs values ≤ MOST_TOTAL → SumsFit places values }
{}
