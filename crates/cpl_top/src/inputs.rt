// A grid, a namelist and a state, as the commands of the coupled run read them.
ghost use Rattle.std.specs.Prelude.{◌≡◌, ℕ, List, Err, IfOk, IfErr};
ghost use Rattle.cpl_top.specs.Inputs.{AreInputs, ask_inputs};
ghost use Rattle.cpl_top.specs.Reads.{NoneFailed, OnlyReads, Reads, Walks};

use crate::files::read_file;
use crate::{Status, Which};
use cpl_io::Shelf;
use std::alloc::Global;

/// The names of the three files.
#[derive(Clone, Copy)]
pub(crate) struct InputWords<'a> {
    pub(crate) grid: &'a str,
    pub(crate) names: &'a str,
    pub(crate) start: &'a str,
}

/// Their bytes.
#[derive(Drop)]
pub(crate) struct Inputs {
    pub(crate) grid: Vec<u8>,
    pub(crate) names: Vec<u8>,
    pub(crate) start: Vec<u8>,
}

/// Reads the three files in this order, whatever comes of them.
pub(crate) fn read_inputs<S: Shelf>(
    alloc: Global,
    words: &InputWords<'_>,
    shelf: &mut S,
) -> Result<Inputs, Status>
    ensures only_reads { OnlyReads S.told S.files S.faults shelf.old shelf.new }
    ensures quiet { IfOk result (λ inputs.
        NoneFailed (S.faults shelf.old) (S.faults shelf.new) (S.failed shelf.old) (S.failed shelf.new)) }
    ensures bytes { IfOk result (AreInputs (S.told shelf.old) (S.files shelf.old)
        words.now.grid.now words.now.names.now words.now.start.now) }
    ensures stop { (rest : List ℕ → List ℕ → List ℕ → Reads) → IfErr result (λ status.
        Walks S.told S.files S.faults S.failed (ask_inputs words.now.grid.now words.now.names.now words.now.start.now rest)
        shelf.old shelf.new (Err status)) }
{
    let grid = read_file(alloc, shelf, Which::Grid, words.grid)?;
    let names = read_file(alloc, shelf, Which::Names, words.names)?;
    let start = read_file(alloc, shelf, Which::Start, words.start)?;
    Ok(Inputs { grid, names, start })
}
