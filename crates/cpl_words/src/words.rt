// The words of the command `run`, read.
ghost use Rattle.std.specs.Prelude.{◌≡◌, ◌≤◌, IfSome, IfOk, string_bytes, codes, not};
ghost use Rattle.std.specs.List.{list_any};
ghost use Rattle.std.specs.Option.{option_map};
ghost use Rattle.clap.specs.Words.{first_value, found_of};
ghost use Rattle.cpl_words.specs.Arguments.{texts};
ghost use Rattle.cpl_words.specs.Words.{run_words_of, told, workers_of};
ghost use Rattle.cpl_words.specs.Found.{begins_with_run, is_separator, run_of};

use crate::arguments::positive;
use crate::command::run_command;
use clap::ArgMatches;
use clap::error::ErrorKind;
use std::alloc::{AllocError, Global};

const MOST_WORKERS: u64 = 16;

const USUAL_WORKERS: u32 = 2;

/// What a command `run` tells.
#[derive(Debug, Drop)]
pub struct RunWords {
    /// The name of the grid's file.
    pub grid: String,
    /// The name of the namelist's file.
    pub names: String,
    /// The name of the start's file.
    pub start: String,
    /// What the names of the files begin with that are written.
    pub out: String,
    /// How many workers share the work, 1 to 16.
    pub workers: u32,
}

// Whether a word is empty, `-` or `--`.
fn is_separator(word: &str) -> bool
    ensures { result ≡ is_separator word.now }
{
    word == "" || word == "-" || word == "--"
}

fn has_separator(words: &[String]) -> bool
    ensures { result ≡ list_any (λ word. is_separator (string_bytes word)) words.now }
{
    words.iter().any(|word| is_separator(word.as_str()))
}

fn begins_with_run(words: &[String]) -> bool
    ensures { result ≡ begins_with_run (texts words.now) }
{
    match words {
        [] => false,
        [first, ..] => first.as_str() == "run",
    }
}

// The number of workers.
fn workers_in(matches: &ArgMatches<'_>) -> Option<u32>
    ensures value { result ≡ workers_of (first_value (found_of matches.now) (codes "workers")) }
    ensures within { IfSome result (λ n. (1 ≤ n) × (n ≤ 16)) }
{
    match matches.get_str("workers") {
        Some(word) => Some(positive(word, MOST_WORKERS)? as u32),
        None => Some(USUAL_WORKERS),
    }
}

// What the reader of command lines found.
fn run_in(alloc: Global, matches: &ArgMatches<'_>) -> Result<Option<RunWords>, AllocError>
    ensures exact { IfOk result (λ run. option_map told run ≡ run_of (first_value (found_of matches.now))) }
    ensures range { IfOk result (λ run. IfSome run (λ r. (1 ≤ r.workers) × (r.workers ≤ 16))) }
{
    let Some(grid) = matches.get_str("grid") else {
        return Ok(None);
    };
    let Some(names) = matches.get_str("names") else {
        return Ok(None);
    };
    let Some(start) = matches.get_str("start") else {
        return Ok(None);
    };
    let Some(out) = matches.get_str("out") else {
        return Ok(None);
    };
    let Some(workers) = workers_in(matches) else {
        return Ok(None);
    };
    Ok(Some(RunWords {
        grid: String::from_str(alloc, grid)?,
        names: String::from_str(alloc, names)?,
        start: String::from_str(alloc, start)?,
        out: String::from_str(alloc, out)?,
        workers,
    }))
}

/// Reads the words of a command line, behind the program's name, as the command `run GRID NAMES START OUT`, among whose
/// arguments `--workers n` or `--workers=n` may stand once; 2 workers where none are told. None where they are no such
/// command (defined by this project).
pub fn run_words(alloc: Global, words: &[String]) -> Result<Option<RunWords>, AllocError>
    ensures exact { IfOk result (λ run. option_map told run ≡ run_words_of (texts words.now)) }
    ensures range { IfOk result (λ run. IfSome run (λ r. (1 ≤ r.workers) × (r.workers ≤ 16))) }
{
    if !begins_with_run(words) || has_separator(words) {
        return Ok(None);
    }
    match run_command(alloc)?.try_get_matches_from(words) {
        Ok(matches) => run_in(alloc, &matches),
        Err(error) if error.kind() == ErrorKind::OutOfMemory => Err(AllocError),
        Err(_) => Ok(None),
    }
}
