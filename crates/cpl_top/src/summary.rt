// The command `summary`: what the run of a made input comes to, in one line.
ghost use Rattle.std.specs.Prelude.{◌≡◌, ◌+◌, ◌*◌, ◌≤◌, [], ◌∷◌, length, IfOk, IfSome, slice_index_or, string_bytes};
ghost use Rattle.std.specs.Option.{option_map};
ghost use Rattle.cpl_made_grid.specs.Shares.{IsSized};
ghost use Rattle.cpl_top.specs.Causes.{Answers};
ghost use Rattle.cpl_top.specs.Reads.{Runs};
ghost use Rattle.cpl_top.specs.Replies.{AreApart};
ghost use Rattle.cpl_top.specs.Summary.{made_plan, most_summary, rows_line, summary_line, summary_of, summary_reads, summary_reply, totals_line};
ghost use Rattle.cpl_words.specs.Arguments.{texts};

use crate::inputs::Inputs;
use crate::make::recipe_of;
use crate::plan::plan_of;
use crate::{Reply, Status};
use cpl_fixed::List;
use cpl_io::Shelf;
use cpl_made_grid::Recipe;
use cpl_make::{Made, make};
use cpl_plan::Plan;
use cpl_stocks::StockRow;
use cpl_whole::run_whole;
use cpl_words::number;
use std::alloc::{AllocError, Global};

// The most coupling steps of a summary.
const MOST_SUMMARY: u64 = 1000;

/// The arguments of `summary`.
#[derive(Clone, Copy)]
pub(crate) struct SummaryWords {
    pub(crate) recipe: Recipe,
    pub(crate) steps: u32,
}

#[tactic(auto, using(crate::proofs::Texts::not_three))]
fn summary_words(arguments: &[String]) -> Option<SummaryWords>
    ensures reads { option_map (λ words. summary_reads words.recipe words.steps) result ≡ summary_of (texts arguments.now) }
    ensures sized { IfSome result (λ words. IsSized words.recipe.size) }
    ensures few { IfSome result (λ words. words.steps ≤ most_summary) }
{
    let [number_word, size, steps] = arguments else {
        return None;
    };
    let recipe = recipe_of(number_word.as_str(), size.as_str())?;
    let steps = number(steps.as_str(), MOST_SUMMARY)? as u32;
    Some(SummaryWords { recipe, steps })
}

// The plan of a made input, which is read as any other.
fn made_plan(alloc: Global, recipe: Recipe, steps: u32) -> Result<Plan, Status>
    requires size { IsSized recipe.size }
    requires steps { steps ≤ most_summary }
    ensures { Answers (λ plan. plan) result (Ok (made_plan recipe steps)) }
{
    let Made { grid, names, start } = make(alloc, recipe.number, recipe.size, steps)?;
    plan_of(alloc, Inputs { grid, names, start })
}

// The end of a line: the heat that entered and left.
fn flows_line(alloc: Global, entered: i64, left: i64) -> Result<String, AllocError>
    ensures { IfOk result (λ line. string_bytes line ≡ totals_line (entered ∷ left ∷ [])) }
{
    format!(in alloc; " {entered} {left}\n")
}

// The line that three rows of stocks come to.
fn rows_line(
    alloc: Global,
    steps: u32,
    heat: &StockRow,
    water: &StockRow,
    salt: &StockRow,
) -> Result<String, AllocError>
    ensures { IfOk result (λ line. string_bytes line ≡ rows_line steps heat.now water.now salt.now) }
{
    let flows = flows_line(alloc, heat.entered, heat.left)?;
    let heat = heat.total;
    let water = water.total;
    let salt = salt.total;
    format!(in alloc; "summary {steps} {heat} {water} {salt}{flows}")
}

// The line that the last three rows of a table come to, which has as many rows for each of the states 0 to `steps`.
fn last_line(alloc: Global, steps: u32, rows: &[StockRow]) -> Result<String, AllocError>
    requires { length rows.now ≡ 3 * steps + 3 }
    ensures { (d : StockRow) → IfOk result (λ line. string_bytes line
        ≡ rows_line steps (slice_index_or rows.now (3 * steps) d) (slice_index_or rows.now (3 * steps + 1) d) (slice_index_or rows.now (3 * steps + 2) d)) }
{
    let first = 3 * steps as usize;
    rows_line(
        alloc,
        steps,
        &rows[first],
        &rows[first + 1],
        &rows[first + 2],
    )
}

// The line of the undivided run of a plan.
fn summary_line(alloc: Global, plan: &Plan) -> Result<String, AllocError>
    ensures { IfOk result (λ line. string_bytes line ≡ summary_line plan.now) }
{
    let outcome = run_whole(alloc, plan)?;
    last_line(alloc, plan.names().steps, outcome.stocks.as_slice())
}

// What is printed for a made input. No file is written.
fn run_summary_command(alloc: Global, recipe: Recipe, steps: u32) -> Result<Reply, Status>
    requires size { IsSized recipe.size }
    requires steps { steps ≤ most_summary }
    ensures answer { Answers (λ reply. reply) result (Ok (summary_reply (made_plan recipe steps))) }
    ensures apart { IfOk result (λ reply. AreApart reply.outputs) }
{
    let plan = made_plan(alloc, recipe, steps)?;
    let line = summary_line(alloc, &plan)?;
    Ok(Reply {
        outputs: List::from_vec(Vec::new(alloc)),
        line: List::from_vec(line.into_bytes()),
    })
}

/// `summary NUMBER SIZE STEPS`: makes an input, reads it, runs it undivided for so many coupling steps, at most 1,000, and writes no
/// file. It prints the totals of heat, water and salt at the end, and the heat that entered and left.
pub(crate) fn summary<S: Shelf>(
    alloc: Global,
    arguments: &[String],
    shelf: &mut S,
) -> Result<Reply, Status>
    ensures { Runs S.told S.files S.faults S.failed (summary_of (texts arguments.now)) shelf.old shelf.new result }
{
    let Some(words) = summary_words(arguments) else {
        return Err(Status::Usage);
    };
    run_summary_command(alloc, words.recipe, words.steps)
}
