// The whole of a file.
ghost use Rattle.std.specs.Prelude.{◌≡◌, ◌<◌, ◌≤◌, length, IsTrue, IsErr, IfOk, IsErrOf};
ghost use Rattle.cpl_io.specs.Files.{bytes_of};
ghost use Rattle.cpl_io.specs.declared.read.ReadError.TheVariants as read;
ghost use Rattle.cpl_io.specs.ReadErrors.{read_error, ReadAfter};

use crate::{Shelf, ShelfError};
use std::alloc::{AllocError, Global};

/// Why a file wasn't read whole.
#[derive(Clone, Copy, Debug, PartialEq, Eq)]
pub enum ReadError {
    /// A reading of the file failed.
    Read,
    /// The file has more bytes than the limit.
    TooLong,
    /// There was no memory.
    Memory,
}

impl From<ShelfError> for ReadError {
    ghost from_gives = { λ error gives. gives ≡ read_error error };

    fn from(error: ShelfError) -> ReadError {
        match error {
            ShelfError::Failed => ReadError::Read,
            ShelfError::Memory => ReadError::Memory,
        }
    }
}

impl From<AllocError> for ReadError {
    ghost from_gives = { λ _ gives. gives ≡ read.Memory };

    fn from(_error: AllocError) -> ReadError {
        ReadError::Memory
    }
}

// How many bytes one reading asks for.
const CHUNK: usize = 65_536;

fn new_chunk(alloc: Global) -> Result<Vec<u8>, AllocError>
    ensures { IfOk result (λ chunk. 0 < length chunk.items) }
{
    vec![in alloc; 0u8; CHUNK]
}

/// All the bytes of a name, of which there may be at most `limit`.
///
/// It asks for 65,536 bytes at a time. Each reading brings a byte or is the last, so there are at most
/// `limit + 2`, and no more than `limit + 65,536` bytes are held. Beside `Ok`, it answers
/// - `Read` only where a reading of this name failed,
/// - `TooLong` only where the name has more than `limit` bytes,
/// - `Memory` where there was no memory, for the bytes or for the shelf's own needs.
///
/// Defined by this project.
pub fn read_whole<S: Shelf>(
    alloc: Global,
    shelf: &mut S,
    name: &str,
    limit: u64,
) -> Result<Vec<u8>, ReadError>
    ensures still_tells { S.told shelf.new ≡ S.told shelf.old }
    ensures files { S.files shelf.new ≡ S.files shelf.old }
    ensures bound { IfOk result (λ bytes. length bytes.items ≤ limit) }
    ensures bytes { IsTrue (S.told shelf.old)
        → IfOk result (λ bytes. bytes.items ≡ bytes_of (S.files shelf.old) name.now) }

    // `TooLong` comes only where there are more than `limit` bytes, and there `Ok` doesn't.
    ensures too_long { IsTrue (S.told shelf.old) → IsErrOf result ReadError.TooLong
        → limit < length (bytes_of (S.files shelf.old) name.now) }
    ensures no_longer { IsTrue (S.told shelf.old)
        → limit < length (bytes_of (S.files shelf.old) name.now) → IsErr result }
    ensures faults_grow { S.faults shelf.old ≤ S.faults shelf.new }

    // `Read` comes only where a reading of this name failed, and after any other answer none has failed.
    ensures read { ReadAfter name.now result
        (S.faults shelf.old) (S.faults shelf.new) (S.failed shelf.old) (S.failed shelf.new) }
{
    let mut bytes = Vec::new(alloc);
    let mut chunk = new_chunk(alloc)?;
    let chunk = chunk.as_mut_slice();
    loop {
        let count = shelf.read_at(name, bytes.len() as u64, chunk)?;
        if count == 0 {
            return Ok(bytes);
        }
        bytes.extend_from_slice(&chunk[..count])?;
        if bytes.len() as u64 > limit {
            return Err(ReadError::TooLong);
        }
    }
}
