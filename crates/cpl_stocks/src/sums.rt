// Numbers added to others, each to its own.
ghost use Rattle.std.specs.Prelude.{◌≡◌, length, All, FitsSigned};
ghost use Rattle.std.specs.Int.{w128};
ghost use Rattle.cpl_stocks.specs.Partials.{each_sum, in_rows, row_sums};

// Adds as many numbers, each to its own.
fn add_each(sums: &mut [i128], numbers: &[i128])
    requires count { length numbers.now ≡ length sums.old }
    requires fits { All (FitsSigned w128) (each_sum sums.old numbers.now) }
    ensures { sums.new ≡ each_sum sums.old numbers.now }
{
    for i in 0..sums.len() {
        sums[i] += numbers[i];
    }
}

/// Adds as many rows, each number to its own.
pub(crate) fn add_rows<const N: usize>(sums: &mut [[i128; N]], rows: &[[i128; N]])
    requires count { length rows.now ≡ length sums.old }
    requires fits { All (FitsSigned w128) (in_rows (row_sums sums.old rows.now)) }
    ensures { sums.new ≡ row_sums sums.old rows.now }
{
    for i in 0..sums.len() {
        add_each(&mut sums[i], &rows[i]);
    }
}
