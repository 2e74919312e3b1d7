// The command `whole`: the undivided run.
ghost use Rattle.std.specs.Prelude.{◌≡◌, ◌≤◌, length, string_bytes, IfOk};
ghost use Rattle.std.specs.Option.{option_map};
ghost use Rattle.cpl_fixed.specs.declared.limits.TheConstants.{MOST_NAMES_BYTES};
ghost use Rattle.cpl_state.specs.States.{IsWhole};
ghost use Rattle.cpl_top.specs.Causes.{Answers};
ghost use Rattle.cpl_top.specs.Reads.{Runs};
ghost use Rattle.cpl_top.specs.Replies.{AreApart};
ghost use Rattle.cpl_top.specs.Runs.{run_line, run_outputs, run_reply};
ghost use Rattle.cpl_top.specs.Whole.{outcome_of, whole_answer, whole_of, whole_reads};
ghost use Rattle.cpl_words.specs.Arguments.{texts};

use crate::counts::{count_coupled, done_line};
use crate::inputs::{InputWords, Inputs, read_inputs};
use crate::plan::plan_of;
use crate::{Output, Reply, Status, Which};
use cpl_fixed::List;
use cpl_io::Shelf;
use cpl_plan::Plan;
use cpl_restart::encode;
use cpl_stocks::{exchanges_text, stocks_text};
use cpl_whole::{Outcome, run_whole};
use std::alloc::{AllocError, Global};

/// The arguments of `whole`.
#[derive(Clone, Copy)]
pub(crate) struct WholeWords<'a> {
    pub(crate) inputs: InputWords<'a>,
    pub(crate) out: &'a str,
}

#[tactic(auto, using(crate::proofs::Texts::not_four))]
fn whole_words<'a>(arguments: &'a [String]) -> Option<WholeWords<'a>>
    ensures { option_map (λ words.
        whole_reads words.inputs.grid.now words.inputs.names.now words.inputs.start.now words.out.now) result
        ≡ whole_of (texts arguments.now) }
{
    let [grid, names, start, out] = arguments else {
        return None;
    };
    let inputs = InputWords {
        grid: grid.as_str(),
        names: names.as_str(),
        start: start.as_str(),
    };
    Some(WholeWords {
        inputs,
        out: out.as_str(),
    })
}

// The files of a run in the order in which they are written.
fn run_outputs(
    alloc: Global,
    out: &str,
    stocks: Vec<u8>,
    exchanges: Vec<u8>,
    restart: Vec<u8>,
) -> Result<List<Output>, AllocError>
    ensures { IfOk result (λ outputs. outputs ≡ run_outputs out.now stocks.items exchanges.items restart.items) }
{
    let mut outputs = Vec::new(alloc);
    outputs.push(Output::new(alloc, Which::Stocks, out, ".stocks", stocks)?)?;
    outputs.push(Output::new(alloc, Which::Exchanges, out, ".exchanges", exchanges)?)?;
    outputs.push(Output::new(alloc, Which::Restart, out, ".restart", restart)?)?;
    Ok(List::from_vec(outputs))
}

// What is printed for a run of a plan.
fn run_line(alloc: Global, plan: &Plan) -> Result<String, AllocError>
    ensures { IfOk result (λ line. string_bytes line ≡ run_line plan.now) }
{
    let counts = count_coupled(plan.grid());
    let cells = u64::from(counts.air) + u64::from(counts.land) + u64::from(counts.ocean);
    done_line(alloc, plan.names().steps, cells, counts.exchange)
}

// What is written and printed for what a run of a plan leaves.
fn run_reply(alloc: Global, out: &str, plan: &Plan, outcome: &Outcome) -> Result<Reply, AllocError>
    requires { IsWhole plan.now.grid outcome.now.last }
    ensures { IfOk result (λ reply. reply ≡ run_reply out.now plan.now outcome.now) }
{
    let stocks = stocks_text(alloc, outcome.stocks.as_slice())?;
    let exchanges = exchanges_text(alloc, outcome.exchanges.as_slice())?;
    let restart = encode(alloc, plan.grid(), &outcome.last)?;
    let outputs = run_outputs(alloc, out, stocks, exchanges, restart)?;
    let line = run_line(alloc, plan)?;
    Ok(Reply {
        outputs,
        line: List::from_vec(line.into_bytes()),
    })
}

// What is written and printed for the undivided run of a plan.
fn run_plan(alloc: Global, out: &str, plan: &Plan) -> Result<Reply, AllocError>
    ensures { IfOk result (λ reply. reply ≡ run_reply out.now plan.now (outcome_of plan.now)) }
{
    let outcome = run_whole(alloc, plan)?;
    run_reply(alloc, out, plan, &outcome)
}

// The same of a plan that nothing needs afterwards, which is freed.
fn run_last(alloc: Global, out: &str, plan: Plan) -> Result<Reply, AllocError>
    ensures { IfOk result (λ reply. reply ≡ run_reply out.now plan (outcome_of plan)) }
{
    run_plan(alloc, out, &plan)
}

// What the bytes of the three files come to.
fn run_whole_command(alloc: Global, out: &str, inputs: Inputs) -> Result<Reply, Status>
    requires { length inputs.names.items ≤ MOST_NAMES_BYTES }
    ensures answer { Answers (λ reply. reply) result
        (whole_answer out.now inputs.grid.items inputs.names.items inputs.start.items) }
    ensures apart { IfOk result (λ reply. AreApart reply.outputs) }
{
    let plan = plan_of(alloc, inputs)?;
    Ok(run_last(alloc, out, plan)?)
}

/// `whole GRID NAMES START OUT`: reads a coupled grid, a namelist and a state of the grid, runs all parts together on whole lists for
/// the time that the namelist gives, and writes the tables of stocks and exchanges and the last state.
pub(crate) fn whole<S: Shelf>(
    alloc: Global,
    arguments: &[String],
    shelf: &mut S,
) -> Result<Reply, Status>
    ensures { Runs S.told S.files S.faults S.failed (whole_of (texts arguments.now)) shelf.old shelf.new result }
{
    let Some(words) = whole_words(arguments) else {
        return Err(Status::Usage);
    };
    let inputs = read_inputs(alloc, &words.inputs, shelf)?;
    run_whole_command(alloc, words.out, inputs)
}
