// A row of cells cut into parts.
ghost use Rattle.std.specs.Prelude.{◌≡◌, ◌<◌, ◌≤◌};
ghost use Rattle.cpl_layout.specs.Extents.{ExtentsCover, extent_start, extent_length, part_of};

/// Where the p-th of `parts` parts of n cells begins, and how many cells it has. The parts follow each other, and the first
/// `n % parts` of them have one cell more than the others. This order is defined by this project.
pub fn extent(n: u32, parts: u32, p: u32) -> (u32, u32)
    requires some { 1 ≤ parts }
    requires enough { parts ≤ n }
    requires part { p < parts }
    ensures start { result.0 ≡ extent_start n parts p }
    ensures length { result.1 ≡ extent_length n parts p }
    ensures cover { ExtentsCover n parts }
{
    let (length, more) = (n / parts, n % parts);
    let start = p * length + p.min(more);
    if p < more {
        (start, length + 1)
    } else {
        (start, length)
    }
}

/// The part that the i-th cell lies in.
pub(crate) fn part_of(n: u32, parts: u32, i: u32) -> u32
    requires some { 1 ≤ parts }
    requires enough { parts ≤ n }
    requires few { n ≤ 1024 }
    requires cell { i < n }
    ensures part { result ≡ part_of n parts i }
    ensures within { result < parts }
{
    let (length, more) = (n / parts, n % parts);
    let longer = more * (length + 1);
    if i < longer {
        i / (length + 1)
    } else {
        more + (i - longer) / length
    }
}
