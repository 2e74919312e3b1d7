// The command `check`: what a grid has.
ghost use Rattle.std.specs.Prelude.{◌≡◌, IfOk};
ghost use Rattle.std.specs.Option.{option_map};
ghost use Rattle.cpl_top.specs.Causes.{Answers};
ghost use Rattle.cpl_top.specs.Check.{counts_of, kind_words, check_answer, check_of, check_reads, check_reply};
ghost use Rattle.cpl_top.specs.Reads.{Runs};
ghost use Rattle.cpl_top.specs.Replies.{AreApart};
ghost use Rattle.cpl_words.specs.Arguments.{texts};

use crate::counts::{Counts, Kind, count_air, count_coupled, counts_line};
use crate::files::read_file;
use crate::{Reply, Status, Which};
use cpl_fixed::List;
use cpl_gridfile::{read_air, take_grid};
use cpl_io::Shelf;
use std::alloc::{AllocError, Global};

// The first line of a grid for the air alone.
const AIR_HEAD: &[u8] = b"grid 1 air\n";

impl Kind {
    // The words that the line begins with.
    fn words(self) -> &'static str
        ensures { result.now ≡ kind_words self }
    {
        match self {
            Kind::Air => "grid air",
            Kind::Coupled => "grid coupled",
        }
    }
}

// What the grid has that bytes spell. They are freed as soon as they are read.
fn count(alloc: Global, bytes: Vec<u8>) -> Result<Counts, Status>
    ensures { Answers (λ counts. counts) result (counts_of bytes.items) }
{
    if bytes.starts_with(AIR_HEAD) {
        let mesh = read_air(alloc, &bytes)?;
        Ok(count_air(&mesh))
    } else {
        let grid = take_grid(alloc, bytes)?;
        Ok(count_coupled(&grid))
    }
}

// What is printed for a grid. No file is written.
fn check_reply(alloc: Global, counts: &Counts) -> Result<Reply, AllocError>
    ensures { IfOk result (λ reply. reply ≡ check_reply counts.now) }
{
    let line = counts_line(alloc, counts.kind.words(), counts)?;
    Ok(Reply {
        outputs: List::from_vec(Vec::new(alloc)),
        line: List::from_vec(line.into_bytes()),
    })
}

// What the bytes of the file come to.
fn run_check_command(alloc: Global, grid: Vec<u8>) -> Result<Reply, Status>
    ensures answer { Answers (λ reply. reply) result (check_answer grid.items) }
    ensures apart { IfOk result (λ reply. AreApart reply.outputs) }
{
    let counts = count(alloc, grid)?;
    Ok(check_reply(alloc, &counts)?)
}

#[tactic(auto, using(crate::proofs::Texts::not_one))]
fn check_words<'a>(arguments: &'a [String]) -> Option<&'a str>
    ensures { option_map (λ grid. check_reads grid.now) result ≡ check_of (texts arguments.now) }
{
    let [grid] = arguments else {
        return None;
    };
    Some(grid.as_str())
}

/// `check GRID`: reads a grid of either kind, and prints its kind, the cells of its mosaics, its exchange cells and its outlets.
pub(crate) fn check<S: Shelf>(
    alloc: Global,
    arguments: &[String],
    shelf: &mut S,
) -> Result<Reply, Status>
    ensures { Runs S.told S.files S.faults S.failed (check_of (texts arguments.now)) shelf.old shelf.new result }
{
    let Some(grid) = check_words(arguments) else {
        return Err(Status::Usage);
    };
    let grid = read_file(alloc, shelf, Which::Grid, grid)?;
    run_check_command(alloc, grid)
}
