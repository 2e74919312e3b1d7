// Blocks of lists: the numbers of a cell, where each cell has as many in turn.
ghost use Rattle.std.specs.Prelude.{◌≡◌, ◌+◌, ◌*◌, ◌<◌, ◌≤◌, ◌↔◌, length, IsTrue};
ghost use Rattle.cpl_state.specs.States.{HasNone, filled_up};
ghost use Rattle.cpl_slow.specs.Blocks.{IsPut};

// The numbers of the n-th cell, filled up with zeros.
pub(crate) fn filled_up<const N: usize>(xs: &[i64], width: usize, n: usize) -> [i64; N]
    requires width { width ≤ N }
    requires within { n * width + width ≤ length xs.now }
    ensures { result ≡ filled_up N width n xs.now }
{
    let start = n * width;
    let mut block = [0; N];
    for k in 0..width {
        block[k] = xs[start + k];
    }
    block
}

// Puts the first numbers of a block into a list, from a place on.
#[inline]
pub(crate) fn put(xs: &mut [i64], start: usize, width: usize, block: &[i64])
    requires block { width ≤ length block.now }
    requires within { start + width ≤ length xs.old }
    ensures { IsPut start width block.now xs.old xs.new }
{
    for k in 0..width {
        xs[start + k] = block[k];
    }
}

// Whether the numbers of the n-th cell are all 0.
pub(crate) fn has_none(xs: &[i64], width: usize, n: usize) -> bool
    requires { n * width + width ≤ length xs.now }
    ensures { IsTrue result ↔ HasNone width n xs.now }
{
    let start = n * width;
    xs[start..start + width].iter().all(|x| *x == 0)
}
