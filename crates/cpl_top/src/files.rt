// The files that a command reads.
ghost use Rattle.std.specs.Prelude.{IfOk, IfErr};
ghost use Rattle.cpl_top.specs.Limits.{limit_of};
ghost use Rattle.cpl_top.specs.Reads.{AreBytes, IsUnread, NoneFailed, OnlyReads};

use crate::{Status, Which};
use cpl_io::{ReadError, Shelf, read_whole};
use std::alloc::Global;

/// The bytes of a file of the command, of which there may be at most `limit`.
pub(crate) fn read_within<S: Shelf>(
    alloc: Global,
    shelf: &mut S,
    file: Which,
    limit: u64,
    name: &str,
) -> Result<Vec<u8>, Status>
    ensures only_reads { OnlyReads S.told S.files S.faults shelf.old shelf.new }
    ensures bytes { IfOk result (λ bytes.
        AreBytes (S.told shelf.old) (S.files shelf.old) name.now limit bytes.items) }
    ensures quiet { IfOk result (λ bytes.
        NoneFailed (S.faults shelf.old) (S.faults shelf.new) (S.failed shelf.old) (S.failed shelf.new)) }
    ensures refusal { IfErr result (IsUnread (S.told shelf.old) (S.files shelf.old) file name.now limit
        (S.faults shelf.old) (S.faults shelf.new) (S.failed shelf.old) (S.failed shelf.new)) }
{
    match read_whole(alloc, shelf, name, limit) {
        Ok(bytes) => Ok(bytes),
        Err(ReadError::Read) => Err(Status::Read(file)),
        Err(ReadError::TooLong) => Err(Status::TooLong(file)),
        Err(ReadError::Memory) => Err(Status::Memory),
    }
}

/// The bytes of a file of the command, of which there may be as many as its kind allows.
pub(crate) fn read_file<S: Shelf>(
    alloc: Global,
    shelf: &mut S,
    file: Which,
    name: &str,
) -> Result<Vec<u8>, Status>
    ensures only_reads { OnlyReads S.told S.files S.faults shelf.old shelf.new }
    ensures bytes { IfOk result (λ bytes.
        AreBytes (S.told shelf.old) (S.files shelf.old) name.now (limit_of file) bytes.items) }
    ensures quiet { IfOk result (λ bytes.
        NoneFailed (S.faults shelf.old) (S.faults shelf.new) (S.failed shelf.old) (S.failed shelf.new)) }
    ensures refusal { IfErr result (IsUnread (S.told shelf.old) (S.files shelf.old) file name.now (limit_of file)
        (S.faults shelf.old) (S.faults shelf.new) (S.failed shelf.old) (S.failed shelf.new)) }
{
    read_within(alloc, shelf, file, file.limit(), name)
}
