//! The program `coupler`: the words after its name, real files and standard output in, an exit status out.
//! All that it does is `cpl_top`'s.
#![tactic(auto)]

ghost use Rattle.std.specs.Prelude.{◌≡◌, ◌⊎◌};
ghost use Rattle.std.specs.Process.{exit_status};
ghost use Rattle.cpl_top.specs.Numbers.{status_number};

use cpl_io::{FileShelf, OutSink};
use cpl_top::{Status, still_top};
use std::process::ExitCode;
use std::rt::{Env, Files};
use std::{env, io};

// The status where there are no words to go by: one that is no text (UTF-8) is no word of a command.
fn no_words(error: &io::Error) -> Status
    ensures { (result ≡ Status.Usage) ⊎ (result ≡ Status.Memory) }
{
    match error.kind() {
        io::ErrorKind::OutOfMemory => Status::Memory,
        _ => Status::Usage,
    }
}

// Does what the words after the program's name say, on real files and standard output. These tell nothing of what they hold,
// so that no clause can: what is proved of the answer is `still_top`'s.
fn run(rt: &(impl Env + Files + Print + AllocGlobal)) -> Status {
    let args = match env::args(rt) {
        Ok(args) => args,
        Err(error) => return no_words(&error),
    };
    let Ok(words) = args.skip(1).collect::<Vec<String>>(rt.alloc()) else {
        return Status::Memory;
    };
    let mut shelf = FileShelf::new(rt, rt.alloc());
    let mut out = OutSink::new(rt);
    still_top(rt.alloc(), words.as_slice(), &mut shelf, &mut out)
}

// Tells standard error why not all was done, and answers the number that the process ends with. No clause can say what a
// terminal was given: that the text goes there exactly where not all was done is tried by running the program.
fn finish(rt: &impl Eprint, status: Status) -> ExitCode
    ensures { exit_status result ≡ status_number status }
{
    if status != Status::Done {
        let _ = eprintln!(rt; "coupler: {status}");
    }
    ExitCode::from(status.number())
}

fn main(rt: HostRuntime) -> ExitCode {
    let status = run(&rt);
    finish(&rt, status)
}
