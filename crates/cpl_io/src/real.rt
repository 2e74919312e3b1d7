// Real files and standard output: the edge of the system. They count their failures, and tell nothing else.
ghost use Rattle.std.specs.Prelude.{◌≡◌, ◌≤◌, length, IfOk, ℕ, Bool, false, Option, None, List, []};
ghost use Rattle.std.specs.FinMap as map;
ghost use Rattle.cpl_io.specs.Failures.{failed_call};

use crate::failure::{Access, Failures, shelf_error};
use crate::system::SystemDisk;
use crate::{Shelf, ShelfError, Sink, SinkError, write_whole};
use std::alloc::{AllocError, Global};
use std::fs::{File, OpenOptions};
use std::io::{self, Read, Seek, SeekFrom, Write};
use std::rt::Files;

/// Names that were begun, and whose first bytes are still to come.
#[derive(Drop)]
struct Begun {
    alloc: Global,
    names: Vec<String>,
}

impl Begun {
    fn has(&self, name: &str) -> bool {
        self.names.iter().any(|begun| begun.as_str() == name)
    }

    fn add(&mut self, name: &str) -> Result<(), AllocError> {
        if !self.has(name) {
            self.names.push(String::from_str(self.alloc, name)?)?;
        }
        Ok(())
    }

    fn remove(&mut self, name: &str) {
        self.names.retain(|begun| begun.as_str() != name);
    }
}

/// Real files. A name is a path. Each call opens the file anew and closes it. Each failure counts, that of
/// a file that is missing, is a directory or may not be read included.
///
/// `begin` takes effect with the first `append` of its name, which gives the file these bytes in one step
/// once they are on the disk: whatever fails, and wherever the program is stopped, the file that was there
/// before stands whole or the new one does. They are gathered beside it in a file `coupler-part-0`, or the
/// next number that is free, which stands only where the program was stopped. The file keeps its permissions
/// and, as far as the system lets it, its owner; a symbolic link is followed and stays. A name that is no
/// regular file, as a pipe, a device or `/dev/stdout`, is written as it is. A further `append` adds at the
/// file's end, and makes the file where there is none.
///
/// It tells no contents. The way of writing is that of `write_whole`, which is proved of any `Disk`; that the system's disk is
/// one, and that the other calls do what their names say, is trusted and not proved.
#[derive(Drop)]
pub struct FileShelf<R> {
    disk: SystemDisk<R>,
    alloc: Global,
    begun: Begun,
    failures: Failures,
}

impl<R: Files + Drop> FileShelf<R> {
    /// The files that the runtime reaches, with no failure so far. The allocator serves the names of files.
    pub fn new(rt: R, alloc: Global) -> FileShelf<R>
        ensures faults { ⟦<FileShelf<R> as Shelf>⟧.faults result ≡ 0 }
        ensures failed { ⟦<FileShelf<R> as Shelf>⟧.failed result ≡ None }
    {
        FileShelf {
            disk: SystemDisk { rt },
            alloc,
            begun: Begun {
                alloc,
                names: Vec::new(alloc),
            },
            failures: Failures::new(alloc),
        }
    }
}

fn read_real<R: Files>(rt: &R, name: &str, from: u64, buf: &mut [u8]) -> io::Result<usize>
    ensures { IfOk result (λ n. n ≤ length buf.new) }
{
    let mut file = File::open(rt, name)?;
    file.seek(SeekFrom::Start(from))?;
    file.read(buf)
}

fn append_real<R: Files>(rt: &R, name: &str, bytes: &[u8]) -> io::Result<()> {
    let mut file = OpenOptions::new().append(true).create(true).open(rt, name)?;
    file.write_all(bytes)
}

// Writes what is no regular file as it is.
fn write_in_place<R: Files>(rt: &R, name: &str, bytes: &[u8]) -> io::Result<()> {
    File::create(rt, name)?.write_all(bytes)
}

// Gives a name that was begun its first bytes.
fn write_first<R: Files + Drop>(
    disk: &mut SystemDisk<R>,
    alloc: Global,
    name: &str,
    bytes: &[u8],
) -> Result<(), ShelfError> {
    if write_whole(alloc, disk, name, bytes)? {
        return Ok(());
    }
    write_in_place(&disk.rt, name, bytes).map_err(|error| shelf_error(&error))
}

impl<R: Files + Drop> Shelf for FileShelf<R> {
    ghost told = { λ _. false };

    ghost files = { λ _. map.empty };

    ghost faults = { λ s. s.failures.count };

    ghost failed = { λ s. failed_call s.failures.last };

    fn read_at(&mut self, name: &str, from: u64, buf: &mut [u8]) -> Result<usize, ShelfError> {
        if self.begun.has(name) {
            return Ok(0);
        }
        match read_real(&self.disk.rt, name, from, buf) {
            Ok(count) => Ok(count),
            Err(error) => {
                let error = shelf_error(&error);
                self.failures.fail_by(error, Access::Reading, name)
            }
        }
    }

    fn begin(&mut self, name: &str) -> Result<(), ShelfError> {
        match self.begun.add(name) {
            Ok(()) => Ok(()),
            Err(_) => Err(ShelfError::Memory),
        }
    }

    fn append(&mut self, name: &str, bytes: &[u8]) -> Result<(), ShelfError> {
        let written = if self.begun.has(name) {
            write_first(&mut self.disk, self.alloc, name, bytes)
        } else {
            append_real(&self.disk.rt, name, bytes).map_err(|error| shelf_error(&error))
        };
        match written {
            Ok(()) => {
                self.begun.remove(name);
                Ok(())
            }
            Err(error) => self.failures.fail_by(error, Access::Writing, name),
        }
    }
}

/// Standard output. Each failure counts, as that of a device that is full or a pipe that is closed. It
/// keeps nothing back: where `put` answers `Ok`, the system has taken all the bytes.
///
/// It tells no bytes. That they reach the output is trusted, and not proved.
#[derive(Drop)]
pub struct OutSink<R> {
    rt: R,
    faults: u64,
}

impl<R: Print + Drop> OutSink<R> {
    /// The output that the runtime reaches, with no failure so far.
    pub fn new(rt: R) -> OutSink<R>
        ensures faults { ⟦<OutSink<R> as Sink>⟧.faults result ≡ 0 }
    {
        OutSink { rt, faults: 0 }
    }
}

fn print_real<R: Print>(rt: &R, bytes: &[u8]) -> io::Result<()> {
    let mut out = io::writer(rt);
    out.write_all(bytes)?;
    out.flush()
}

impl<R: Print + Drop> Sink for OutSink<R> {
    ghost told = { λ _. false };

    ghost written = { λ _. [] };

    ghost faults = { λ s. s.faults };

    fn put(&mut self, bytes: &[u8]) -> Result<(), SinkError> {
        match print_real(&self.rt, bytes) {
            Ok(()) => Ok(()),
            Err(_) => {
                self.faults = self.faults.saturating_add(1);
                Err(SinkError::Failed)
            }
        }
    }
}
