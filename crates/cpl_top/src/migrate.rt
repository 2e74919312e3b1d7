// The command `migrate`: a state of either version, written in version 2.
ghost use Rattle.std.specs.Prelude.{◌≡◌, IfOk};
ghost use Rattle.std.specs.Option.{option_map};
ghost use Rattle.cpl_top.specs.Causes.{Answers};
ghost use Rattle.cpl_top.specs.Migrate.{migrate_answer, migrate_of, migrate_reads, migrate_reply};
ghost use Rattle.cpl_top.specs.Reads.{Runs};
ghost use Rattle.cpl_top.specs.Replies.{AreApart};
ghost use Rattle.cpl_words.specs.Arguments.{texts};

use crate::files::read_file;
use crate::{Output, Reply, Status, Which};
use cpl_fixed::List;
use cpl_gridfile::read_grid;
use cpl_io::Shelf;
use cpl_restart::{decode, encode};
use cpl_state::Whole;
use std::alloc::{AllocError, Global};

/// The arguments of `migrate`.
#[derive(Clone, Copy)]
pub(crate) struct MigrateWords<'a> {
    pub(crate) grid: &'a str,
    pub(crate) start: &'a str,
    pub(crate) out: &'a str,
}

#[tactic(auto, using(crate::proofs::Texts::not_three))]
fn migrate_words<'a>(arguments: &'a [String]) -> Option<MigrateWords<'a>>
    ensures { option_map (λ words. migrate_reads words.grid.now words.start.now words.out.now) result
        ≡ migrate_of (texts arguments.now) }
{
    let [grid, start, out] = arguments else {
        return None;
    };
    Some(MigrateWords {
        grid: grid.as_str(),
        start: start.as_str(),
        out: out.as_str(),
    })
}

// What is written and printed for a state that has these bytes.
fn migrate_reply(
    alloc: Global,
    out: &str,
    whole: &Whole,
    bytes: Vec<u8>,
) -> Result<Reply, AllocError>
    ensures { IfOk result (λ reply. reply ≡ migrate_reply out.now bytes.items whole.now.elapsed) }
{
    let mut outputs = Vec::new(alloc);
    outputs.push(Output::new(alloc, Which::Restart, out, ".restart", bytes)?)?;
    let line = format!(in alloc; "migrated {}\n", whole.elapsed)?;
    Ok(Reply {
        outputs: List::from_vec(outputs),
        line: List::from_vec(line.into_bytes()),
    })
}

// What the bytes of the two files come to. Each file's bytes are freed as soon as they are read, so that there is memory for
// those that are written.
fn run_migrate_command(
    alloc: Global,
    out: &str,
    grid: Vec<u8>,
    start: Vec<u8>,
) -> Result<Reply, Status>
    ensures answer { Answers (λ reply. reply) result (migrate_answer out.now grid.items start.items) }
    ensures apart { IfOk result (λ reply. AreApart reply.outputs) }
{
    let coupled = read_grid(alloc, &grid)?;
    drop(grid);
    let whole = decode(alloc, &coupled, &start)?;
    drop(start);
    let bytes = encode(alloc, &coupled, &whole)?;
    Ok(migrate_reply(alloc, out, &whole, bytes)?)
}

/// `migrate GRID START OUT`: reads a coupled grid and a state of it, in version 1 or 2, and writes the state in version 2. It
/// prints the state's elapsed seconds.
pub(crate) fn migrate<S: Shelf>(
    alloc: Global,
    arguments: &[String],
    shelf: &mut S,
) -> Result<Reply, Status>
    ensures { Runs S.told S.files S.faults S.failed (migrate_of (texts arguments.now)) shelf.old shelf.new result }
{
    let Some(words) = migrate_words(arguments) else {
        return Err(Status::Usage);
    };
    let grid = read_file(alloc, shelf, Which::Grid, words.grid)?;
    let start = read_file(alloc, shelf, Which::Start, words.start)?;
    run_migrate_command(alloc, words.out, grid, start)
}
