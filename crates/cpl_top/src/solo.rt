// The command `solo`: the air alone, undivided or in pieces.
ghost use Rattle.std.specs.Prelude.{◌≡◌, IfOk, IfSome};
ghost use Rattle.std.specs.Option.{option_map};
ghost use Rattle.cpl_state.specs.Diffusion.{IsAirMesh, AreAmounts, air_after, cell_count};
ghost use Rattle.cpl_top.specs.Causes.{Answers};
ghost use Rattle.cpl_top.specs.Pieces.{ArePieces};
ghost use Rattle.cpl_top.specs.Reads.{Runs};
ghost use Rattle.cpl_top.specs.Replies.{AreApart};
ghost use Rattle.cpl_top.specs.Solo.{air_layout, solo_of, solo_reads, solo_answer, solo_reply};
ghost use Rattle.cpl_words.specs.Arguments.{texts};

use crate::budget::judge_budget;
use crate::counts::done_line;
use crate::files::read_file;
use crate::pieces::{Pieces, judge_layout, pieces_of};
use crate::{Output, Reply, Status, Which};
use cpl_divided::run_divided;
use cpl_fixed::{Component, List, MOST_STEPS, Quantity};
use cpl_gridfile::read_air;
use cpl_io::Shelf;
use cpl_layout::Layout;
use cpl_mosaic::{Mesh, Mosaic};
use cpl_restart::{decode_air, encode_air};
use cpl_state::Air;
use cpl_whole::run_solo;
use cpl_words::number;
use std::alloc::{AllocError, Global};

/// The arguments of `solo`.
#[derive(Clone, Copy)]
pub(crate) struct SoloWords<'a> {
    pub(crate) grid: &'a str,
    pub(crate) start: &'a str,
    pub(crate) out: &'a str,
    pub(crate) steps: u32,
    pub(crate) pieces: Option<Pieces>,
}

// Either form, by the number of arguments.
#[tactic(auto, using(crate::proofs::Texts::not_four_or_six))]
fn solo_words<'a>(arguments: &'a [String]) -> Option<SoloWords<'a>>
    ensures reads { option_map (λ words.
        solo_reads words.grid.now words.start.now words.out.now words.steps words.pieces) result
        ≡ solo_of (texts arguments.now) }
    ensures pieces { IfSome result (λ words. IfSome words.pieces ArePieces) }
{
    match arguments {
        [grid, start, out, steps] => {
            let steps = number(steps.as_str(), u64::from(MOST_STEPS))? as u32;
            Some(SoloWords {
                grid: grid.as_str(),
                start: start.as_str(),
                out: out.as_str(),
                steps,
                pieces: None,
            })
        }
        [grid, start, out, steps, px, py] => {
            let steps = number(steps.as_str(), u64::from(MOST_STEPS))? as u32;
            let pieces = pieces_of(px.as_str(), py.as_str())?;
            Some(SoloWords {
                grid: grid.as_str(),
                start: start.as_str(),
                out: out.as_str(),
                steps,
                pieces: Some(pieces),
            })
        }
        _ => None,
    }
}

// What is written and printed for the last air.
fn solo_reply(
    alloc: Global,
    words: &SoloWords<'_>,
    cells: u32,
    air: &Air,
) -> Result<Reply, AllocError>
    ensures { IfOk result (λ reply. reply ≡ solo_reply words.now.out.now words.now.steps cells air.now) }
{
    let restart = encode_air(alloc, air)?;
    let mut outputs = Vec::new(alloc);
    outputs.push(Output::new(alloc, Which::Restart, words.out, ".restart", restart)?)?;
    let line = done_line(alloc, words.steps, u64::from(cells), 0)?;
    Ok(Reply {
        outputs: List::from_vec(outputs),
        line: List::from_vec(line.into_bytes()),
    })
}

// The layout of the air, where pieces are asked for.
fn air_layout(
    alloc: Global,
    mosaic: &Mosaic,
    pieces: Option<Pieces>,
) -> Result<Option<Layout>, Status>
    requires { IfSome pieces ArePieces }
    ensures answer { Answers (λ layout. tt) result (air_layout pieces mosaic.now.tiles) }
    ensures tiles { IfOk result (λ layout. IfSome layout (λ cuts. cuts.tiles ≡ mosaic.now.tiles)) }
{
    match pieces {
        None => Ok(None),
        Some(pieces) => Ok(Some(judge_layout(alloc, Component::Atmos, mosaic, pieces)?)),
    }
}

// The air after n steps, by pieces where there is a layout.
fn run_air(
    alloc: Global,
    mesh: &Mesh,
    layout: Option<Layout>,
    air: Air,
    n: u32,
) -> Result<Air, AllocError>
    requires mesh { IsAirMesh mesh.now }
    requires layout { IfSome layout (λ cuts. cuts.tiles ≡ mesh.now.mosaic.tiles) }
    requires heat { AreAmounts (cell_count mesh.now) air.heat }
    requires vapour { AreAmounts (cell_count mesh.now) air.vapour }
    ensures { IfOk result (λ last. last ≡ air_after n mesh.now air) }
{
    match layout {
        None => run_solo(alloc, mesh, air, n),
        Some(layout) => run_divided(alloc, mesh, &layout, air, n),
    }
}

// What the bytes of the two files come to. Each file's bytes are freed as soon as they are read, so that the run has the memory.
fn run_solo_command(
    alloc: Global,
    words: &SoloWords<'_>,
    grid: Vec<u8>,
    start: Vec<u8>,
) -> Result<Reply, Status>
    requires { IfSome words.now.pieces ArePieces }
    ensures answer { Answers (λ reply. reply) result
        (solo_answer words.now.out.now words.now.steps words.now.pieces grid.items start.items) }
    ensures apart { IfOk result (λ reply. AreApart reply.outputs) }
{
    let mesh = read_air(alloc, &grid)?;
    drop(grid);
    let cells = mesh.mosaic.cells();
    let air = decode_air(alloc, cells, &start)?;
    drop(start);
    let layout = air_layout(alloc, &mesh.mosaic, words.pieces)?;
    judge_budget(Quantity::Heat, air.heat.as_slice())?;
    judge_budget(Quantity::Water, air.vapour.as_slice())?;
    let last = run_air(alloc, &mesh, layout, air, words.steps)?;
    Ok(solo_reply(alloc, words, cells, &last)?)
}

/// `solo GRID START OUT N`, or with PX PY: reads a grid and a state of its air, runs the air alone for N steps, and writes its
/// last state. With PX and PY it runs in as many columns and rows of pieces, which changes nothing of what is written.
pub(crate) fn solo<S: Shelf>(
    alloc: Global,
    arguments: &[String],
    shelf: &mut S,
) -> Result<Reply, Status>
    ensures { Runs S.told S.files S.faults S.failed (solo_of (texts arguments.now)) shelf.old shelf.new result }
{
    let Some(words) = solo_words(arguments) else {
        return Err(Status::Usage);
    };
    let grid = read_file(alloc, shelf, Which::Grid, words.grid)?;
    let start = read_file(alloc, shelf, Which::Start, words.start)?;
    run_solo_command(alloc, &words, grid, start)
}
