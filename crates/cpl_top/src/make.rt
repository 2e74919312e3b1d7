// The command `make`: an input of any size.
ghost use Rattle.std.specs.Prelude.{◌≡◌, IfOk, IfSome};
ghost use Rattle.std.specs.Option.{option_map};
ghost use Rattle.cpl_made_grid.specs.Shares.{IsSized};
ghost use Rattle.cpl_top.specs.Make.{input_files, make_of, make_reads, make_reply, recipe_of};
ghost use Rattle.cpl_top.specs.Reads.{Runs};
ghost use Rattle.cpl_top.specs.Replies.{AreApart};
ghost use Rattle.cpl_words.specs.Arguments.{texts};

use crate::counts::{count_coupled, counts_line};
use crate::{Output, Reply, Status, Which};
use cpl_fixed::List;
use cpl_io::Shelf;
use cpl_made_grid::{MOST_SIZE, Recipe, make_grid};
use cpl_make::{Made, make_files};
use cpl_words::{number, positive};
use std::alloc::{AllocError, Global};

// The coupling steps that the namelist of a made input asks for.
const STEPS: u32 = 24;

/// The arguments of `make`.
#[derive(Clone, Copy)]
pub(crate) struct MakeWords<'a> {
    pub(crate) recipe: Recipe,
    pub(crate) out: &'a str,
}

/// What two words choose, if they are a number below 2^64 and a size from 1 to 64.
pub(crate) fn recipe_of(number_word: &str, size_word: &str) -> Option<Recipe>
    ensures value { result ≡ recipe_of number_word.now size_word.now }
    ensures sized { IfSome result (λ recipe. IsSized recipe.size) }
{
    let number = number(number_word, u64::MAX)?;
    let size = positive(size_word, u64::from(MOST_SIZE))? as u32;
    Some(Recipe { number, size })
}

#[tactic(auto, using(crate::proofs::Texts::not_three))]
fn make_words<'a>(arguments: &'a [String]) -> Option<MakeWords<'a>>
    ensures reads { option_map (λ words. make_reads words.out.now words.recipe) result ≡ make_of (texts arguments.now) }
    ensures sized { IfSome result (λ words. IsSized words.recipe.size) }
{
    let [number, size, out] = arguments else {
        return None;
    };
    let recipe = recipe_of(number.as_str(), size.as_str())?;
    Some(MakeWords {
        recipe,
        out: out.as_str(),
    })
}

// The files of an input in the order in which they are written.
fn input_files(alloc: Global, out: &str, made: Made) -> Result<List<Output>, AllocError>
    ensures { IfOk result (λ outputs. outputs ≡ input_files out.now made.grid.items made.names.items made.start.items) }
{
    let Made { grid, names, start } = made;
    let mut outputs = Vec::new(alloc);
    outputs.push(Output::new(alloc, Which::Grid, out, ".grid", grid)?)?;
    outputs.push(Output::new(alloc, Which::Names, out, ".nml", names)?)?;
    outputs.push(Output::new(alloc, Which::Start, out, ".start", start)?)?;
    Ok(List::from_vec(outputs))
}

// What is written and printed for an input.
fn run_make_command(alloc: Global, out: &str, recipe: Recipe) -> Result<Reply, AllocError>
    requires { IsSized recipe.size }
    ensures reply { IfOk result (λ reply. reply ≡ make_reply out.now recipe) }
    ensures apart { IfOk result (λ reply. AreApart reply.outputs) }
{
    let grid = make_grid(alloc, recipe)?;
    let line = counts_line(alloc, "made", &count_coupled(&grid))?;
    let made = make_files(alloc, recipe, &grid, STEPS)?;
    drop(grid);
    let outputs = input_files(alloc, out, made)?;
    Ok(Reply {
        outputs,
        line: List::from_vec(line.into_bytes()),
    })
}

/// `make NUMBER SIZE OUT`: makes an input that a number chooses among those of a size, and writes its grid, its namelist for a run of
/// a day, and its start. It prints what the grid has.
pub(crate) fn make<S: Shelf>(
    alloc: Global,
    arguments: &[String],
    shelf: &mut S,
) -> Result<Reply, Status>
    ensures { Runs S.told S.files S.faults S.failed (make_of (texts arguments.now)) shelf.old shelf.new result }
{
    let Some(words) = make_words(arguments) else {
        return Err(Status::Usage);
    };
    Ok(run_make_command(alloc, words.out, words.recipe)?)
}
