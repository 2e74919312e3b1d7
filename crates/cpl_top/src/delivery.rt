// Files and a line, written in order. This serves all commands.
ghost use Rattle.std.specs.Prelude.{◌≡◌, ◌≤◌, ◌+◌, ℕ, Some, Any, IsTrue, OnOk, IsErrOf};
ghost use Rattle.cpl_io.specs.Files.{Has, OthersStand};
ghost use Rattle.cpl_io.specs.Causes.{FailedAfter, Rose, Writing};
ghost use Rattle.cpl_top.specs.Causes.{ShelfFaults, SinkFaults};
ghost use Rattle.cpl_top.specs.Replies.{AreApart};
ghost use Rattle.cpl_top.specs.Leaves.{LeavesFiles, LeavesLine};
ghost use Rattle.cpl_top.specs.Writes.{WritesFiles, WriteFaults, IsDelivery};
ghost use Rattle.cpl_top.specs.declared.status.Which.{Which};

use crate::{Output, Status, Which};
use cpl_io::{Shelf, ShelfError, Sink, SinkError};

// Writes one file whole.
fn write_file<S: Shelf>(output: &Output, shelf: &mut S) -> Result<(), ShelfError>
    ensures still_tells { S.told shelf.new ≡ S.told shelf.old }
    ensures ok { IsTrue (S.told shelf.old)
        → OnOk result (Has (S.files shelf.new) output.now.name output.now.bytes) }
    ensures others { IsTrue (S.told shelf.old)
        → OthersStand (S.files shelf.old) (S.files shelf.new) output.now.name }
    ensures faults_grow { S.faults shelf.old ≤ S.faults shelf.new }
    ensures cause { FailedAfter (Writing output.now.name) result
        (S.faults shelf.old) (S.faults shelf.new) (S.failed shelf.old) (S.failed shelf.new) }
{
    shelf.begin(output.name.as_str())?;
    shelf.append(output.name.as_str(), output.bytes.as_slice())
}

/// Why not all files were written.
#[derive(Clone, Copy)]
pub(crate) enum WriteError {
    Failed(Which),
    Memory,
}

// Writes the files in order, up to the first that fails.
fn write_files<S: Shelf>(outputs: &[Output], shelf: &mut S) -> Result<(), WriteError>
    requires { AreApart outputs.now }
    ensures still_tells { S.told shelf.new ≡ S.told shelf.old }
    ensures files { IsTrue (S.told shelf.old)
        → WritesFiles result outputs.now (S.files shelf.old) (S.files shelf.new) }
    ensures faults_grow { S.faults shelf.old ≤ S.faults shelf.new }
    ensures failed { (file : Which) → IsErrOf result (WriteError.Failed file)
        → Rose (S.faults shelf.old) (S.faults shelf.new)
        × Any (λ output. (output.which ≡ file) × (S.failed shelf.new ≡ Some (Writing output.name))) outputs.now }
    ensures faults { WriteFaults result
        (S.faults shelf.old) (S.faults shelf.new) (S.failed shelf.old) (S.failed shelf.new) }
{
    for output in outputs {
        match write_file(output, shelf) {
            Ok(()) => {}
            Err(ShelfError::Failed) => return Err(WriteError::Failed(output.which)),
            Err(ShelfError::Memory) => return Err(WriteError::Memory),
        }
    }
    Ok(())
}

/// Writes the files in order, and then the line.
pub(crate) fn deliver<S: Shelf, K: Sink>(
    outputs: &[Output],
    line: &[u8],
    shelf: &mut S,
    out: &mut K,
) -> Status
    requires { AreApart outputs.now }
    ensures still_tells { (S.told shelf.new ≡ S.told shelf.old) × (K.told out.new ≡ K.told out.old) }
    ensures files { IsTrue (S.told shelf.old)
        → LeavesFiles result outputs.now (S.files shelf.old) (S.files shelf.new) }
    ensures line { IsTrue (K.told out.old)
        → LeavesLine result line.now (K.written out.old) (K.written out.new) }
    ensures written { IsDelivery result }
    ensures write { (file : Which) → result ≡ Status.Write file
        → Rose (S.faults shelf.old) (S.faults shelf.new)
        × Any (λ output. (output.which ≡ file) × (S.failed shelf.new ≡ Some (Writing output.name))) outputs.now }
    ensures print { result ≡ Status.Print → Rose (K.faults out.old) (K.faults out.new) }
    ensures faults { ShelfFaults result
        (S.faults shelf.old) (S.faults shelf.new) (S.failed shelf.old) (S.failed shelf.new) }
    ensures sink_faults { SinkFaults result (K.faults out.old) (K.faults out.new) }
    ensures faults_grow { (S.faults shelf.old ≤ S.faults shelf.new) × (K.faults out.old ≤ K.faults out.new) }
{
    match write_files(outputs, shelf) {
        Ok(()) => {}
        Err(WriteError::Failed(file)) => return Status::Write(file),
        Err(WriteError::Memory) => return Status::Memory,
    }
    match out.put(line) {
        Ok(()) => Status::Done,
        Err(SinkError::Failed) => Status::Print,
        Err(SinkError::Memory) => Status::Memory,
    }
}
