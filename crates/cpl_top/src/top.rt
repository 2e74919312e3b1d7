// The top call.
ghost use Rattle.std.specs.Prelude.{◌≡◌, ◌≤◌, ◌⊎◌, ◌↔◌, None, IsTrue};
ghost use Rattle.cpl_io.specs.Causes.{Rose};
ghost use Rattle.cpl_words.specs.Arguments.{texts};
ghost use Rattle.cpl_top.specs.Replies.{outputs_of, line_of, status_of};
ghost use Rattle.cpl_top.specs.Commands.{answer, command_of};
ghost use Rattle.cpl_top.specs.Conserving.{Conserves};
ghost use Rattle.cpl_top.specs.Leaves.{LeavesFiles, LeavesLine, IsSilent, PrintsReply};
ghost use Rattle.cpl_top.specs.Causes.{Agrees, ShelfFaults, SinkFaults};
ghost use Rattle.cpl_top.specs.Failures.{FailedReading, FailedWriting};
ghost use Rattle.cpl_top.specs.Prepared.{IsPrepared};
ghost use Rattle.cpl_top.specs.Reads.{Runs};
ghost use Rattle.cpl_top.specs.declared.status.Which.{Which};

use crate::check::check;
use crate::delivery::deliver;
use crate::make::make;
use crate::migrate::migrate;
use crate::solo::solo;
use crate::summary::summary;
use crate::whole::whole;
use crate::{Reply, Status};
use cpl_io::{Shelf, Sink};
use cpl_words::are_arguments;
use std::alloc::Global;

// Runs the command that the words are: reads what it asks for, judges it, and computes. Nothing is written yet.
#[tactic(auto, unfolding(crate::specs::Commands::command_of))]
fn run_command<S: Shelf>(alloc: Global, words: &[String], shelf: &mut S) -> Result<Reply, Status>
    ensures { Runs S.told S.files S.faults S.failed (command_of (texts words.now)) shelf.old shelf.new result }
{
    if !are_arguments(words) {
        return Err(Status::Usage);
    }
    let [name, arguments @ ..] = words else {
        return Err(Status::Usage);
    };
    match name.as_str() {
        "check" => check(alloc, arguments, shelf),
        "make" => make(alloc, arguments, shelf),
        "migrate" => migrate(alloc, arguments, shelf),
        "solo" => solo(alloc, arguments, shelf),
        "summary" => summary(alloc, arguments, shelf),
        "whole" => whole(alloc, arguments, shelf),
        _ => Err(Status::Usage),
    }
}

// The same, by what the command's walk comes to.
fn prepare<S: Shelf>(alloc: Global, words: &[String], shelf: &mut S) -> Result<Reply, Status>
    ensures { IsPrepared S.told S.files S.faults S.failed (command_of (texts words.now)) shelf.old shelf.new result }
{
    run_command(alloc, words, shelf)
}

/// Does all that the program does, for the words after the program's name. It waits for nobody and always returns.
///
/// The order of judging is: the words; each file read, in the order of the words; then what each file says, in the same order;
/// then layouts and the budget. All reading comes before all judging and all writing, so a file that is read may be written too.
pub fn still_top<S: Shelf, K: Sink>(
    alloc: Global,
    words: &[String],
    shelf: &mut S,
    out: &mut K,
) -> Status
    // Usage, TooLong, Grid, Names, Start and Budget are the answer to the words and files. Done, Write and Print come only where the
    // answer is files and a line.
    ensures answer { IsTrue (S.told shelf.old) → Agrees result (answer (texts words.now) (S.files shelf.old)) }
    ensures usage { (result ≡ Status.Usage) ↔ (command_of (texts words.now) ≡ None) }

    // What stands, and what was printed.
    ensures files { IsTrue (S.told shelf.old)
        → LeavesFiles result (outputs_of (answer (texts words.now) (S.files shelf.old)))
        (S.files shelf.old) (S.files shelf.new) }
    ensures line { IsTrue (S.told shelf.old) → IsTrue (K.told out.old)
        → LeavesLine result (line_of (answer (texts words.now) (S.files shelf.old)))
        (K.written out.old) (K.written out.new) }
    // Done says what was printed, also where the shelf doesn't tell its files.
    ensures printed { IsTrue (K.told out.old) → result ≡ Status.Done
        → PrintsReply (S.told shelf.old) (S.files shelf.old) (command_of (texts words.now)) (K.written out.old) (K.written out.new) }
    ensures silent { IsTrue (K.told out.old) → IsSilent result → K.written out.new ≡ K.written out.old }

    // Nothing is lost in a run: the rows of its tables balance and keep, and a run can go on from its restart.
    ensures conserving { Conserves }

    // Where the outside is to blame, it failed in this call, at the file that is named.
    ensures read { (file : Which) → result ≡ Status.Read file
        → FailedReading (S.told shelf.old) (S.files shelf.old) (command_of (texts words.now)) file
        (S.faults shelf.old) (S.faults shelf.new) (S.failed shelf.new) }
    ensures write { (file : Which) → result ≡ Status.Write file
        → FailedWriting (S.told shelf.old) (S.files shelf.old) (command_of (texts words.now)) file
        (S.faults shelf.old) (S.faults shelf.new) (S.failed shelf.new) }
    ensures print { result ≡ Status.Print → Rose (K.faults out.old) (K.faults out.new) }

    // Where it failed, the status says so: no other leaves a fault behind.
    ensures shelf_faults { ShelfFaults result
        (S.faults shelf.old) (S.faults shelf.new) (S.failed shelf.old) (S.failed shelf.new) }
    ensures sink_faults { SinkFaults result (K.faults out.old) (K.faults out.new) }

    // Where nothing failed, the status is that of the answer, unless memory ran out.
    ensures complete { IsTrue (S.told shelf.old)
        → ¬ Rose (S.faults shelf.old) (S.faults shelf.new) → ¬ Rose (K.faults out.old) (K.faults out.new)
        → (result ≡ status_of (answer (texts words.now) (S.files shelf.old))) ⊎ (result ≡ Status.Memory) }

    // The shelf and the sink go on as they were, so that calls can follow each other.
    ensures still_tells { (S.told shelf.new ≡ S.told shelf.old) × (K.told out.new ≡ K.told out.old) }
    ensures faults_grow { (S.faults shelf.old ≤ S.faults shelf.new) × (K.faults out.old ≤ K.faults out.new) }
{
    match prepare(alloc, words, shelf) {
        Ok(reply) => deliver(reply.outputs.as_slice(), reply.line.as_slice(), shelf, out),
        Err(refusal) => refusal,
    }
}
