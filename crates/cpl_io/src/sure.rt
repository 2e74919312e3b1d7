// A shelf and a sink in memory of which no call fails.
ghost use Rattle.std.specs.Prelude.{◌≡◌, ◌++◌, ℕ, Bool, true, [], List, Option, None, IsTrue, OnOk};
ghost use Rattle.std.specs.Option.{option_map};
ghost use Rattle.std.specs.FinMap as map;
ghost use Rattle.cpl_io.specs.Files.{Files, Has, OthersStand};
ghost use Rattle.cpl_io.specs.Causes.{Call};

use crate::named::NamedFiles;
use crate::{Shelf, ShelfError, Sink, SinkError};
use std::alloc::{AllocError, Global};
use std::marker::Model;

/// Files in memory. Its count of faults is 0 at all times, so that no call answers `Failed`.
#[derive(Drop)]
pub struct SureShelf {
    files: NamedFiles,
}

impl Model for SureShelf {
    ghost use Rattle.cpl_io.specs.Files.{Files, coded_files};

    ghost Value = { Files };

    ghost coded = { coded_files };

    ghost view = { λ s. s.files };
}

impl SureShelf {
    /// A shelf with no file.
    pub fn new(alloc: Global) -> SureShelf
        ensures told { IsTrue (⟦<SureShelf as Shelf>⟧.told result) }
        ensures files { ⟦<SureShelf as Shelf>⟧.files result ≡ map.empty }
        ensures failed { ⟦<SureShelf as Shelf>⟧.failed result ≡ None }

        // Of no such shelf does the count ever rise, and so no call on it answers `Failed`.
        ensures sure { (shelf : Files) → ⟦<SureShelf as Shelf>⟧.faults shelf ≡ 0 }
    {
        SureShelf {
            files: NamedFiles::new(alloc),
        }
    }

    /// Gives the name these bytes.
    pub fn store(&mut self, name: &str, bytes: &[u8]) -> Result<(), AllocError>
        ensures ok { OnOk result (Has self.new name.now bytes.now) }
        ensures others { OthersStand self.old self.new name.now }
    {
        self.files.put(name, bytes)
    }

    /// The bytes of the name, and none exactly where there is no such file.
    pub fn file(&self, name: &str) -> Option<&[u8]>
        ensures { option_map (λ bytes. bytes.now) result ≡ map.get self.now name.now }
    {
        self.files.get(name)
    }
}

impl Shelf for SureShelf {
    ghost told = { λ _. true };

    ghost files = { λ s. s };

    ghost faults = { λ _. 0 };

    ghost failed = { λ _. None };

    fn read_at(&mut self, name: &str, from: u64, buf: &mut [u8]) -> Result<usize, ShelfError> {
        Ok(self.files.copy_from(name, from, buf))
    }

    fn begin(&mut self, name: &str) -> Result<(), ShelfError> {
        self.files.put(name, &[]).map_err(|_| ShelfError::Memory)
    }

    fn append(&mut self, name: &str, bytes: &[u8]) -> Result<(), ShelfError> {
        self.files
            .extend(name, bytes)
            .map_err(|_| ShelfError::Memory)
    }
}

/// What was written, in memory. Its count of faults is 0 at all times, so that no call answers `Failed`.
#[derive(Drop)]
pub struct SureSink {
    bytes: Vec<u8>,
}

impl Model for SureSink {
    ghost use Rattle.std.specs.Prelude.{ℕ, List};

    ghost Value = { List ℕ };

    ghost view = { λ s. s.bytes.items };
}

impl SureSink {
    /// A sink with no byte so far.
    pub fn new(alloc: Global) -> SureSink
        ensures told { IsTrue (⟦<SureSink as Sink>⟧.told result) }
        ensures written { ⟦<SureSink as Sink>⟧.written result ≡ [] }

        // Of no such sink does the count ever rise, and so no call on it answers `Failed`.
        ensures sure { (sink : List ℕ) → ⟦<SureSink as Sink>⟧.faults sink ≡ 0 }
    {
        SureSink {
            bytes: Vec::new(alloc),
        }
    }

    /// All that was written.
    pub fn bytes(&self) -> &[u8]
        ensures { result.now ≡ self.now }
    {
        self.bytes.as_slice()
    }
}

impl Sink for SureSink {
    ghost told = { λ _. true };

    ghost written = { λ s. s };

    ghost faults = { λ _. 0 };

    fn put(&mut self, bytes: &[u8]) -> Result<(), SinkError> {
        self.bytes
            .extend_from_slice(bytes)
            .map_err(|_| SinkError::Memory)
    }
}
