// What the reader of command lines is told of the command `run`.
ghost use Rattle.std.specs.Prelude.{◌≡◌, IfOk, false};
ghost use Rattle.clap.specs.Words.{app_of, rule_of};
ghost use Rattle.cpl_words.specs.Command.{argument_rule, run_app};

use clap::{Arg, ArgAction, Command};
use std::alloc::{AllocError, Global};

// An argument that must be given.
fn argument<'a>(alloc: Global, id: &'a str) -> Arg<'a>
    ensures rule { rule_of result ≡ argument_rule id.entry.now }
    ensures local { result.global ≡ false }
{
    Arg::new(alloc, id).required(true)
}

// The command of four arguments, with an option.
pub(crate) fn run_command<'a>(alloc: Global) -> Result<Command<'a>, AllocError>
    ensures { IfOk result (λ command. app_of command ≡ run_app) }
{
    let workers = Arg::new(alloc, "workers")
        .long("workers")
        .action(ArgAction::Set);
    Command::new(alloc, "run")
        .disable_help_flag(true)
        .arg(argument(alloc, "grid"))?
        .arg(argument(alloc, "names"))?
        .arg(argument(alloc, "start"))?
        .arg(argument(alloc, "out"))?
        .arg(workers)
}
