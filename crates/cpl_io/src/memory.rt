// A shelf and a sink in memory, of which chosen calls fail.
ghost use Rattle.std.specs.Prelude.{◌≡◌, ◌<◌, ◌≤◌, ◌++◌, true, [], None, length, Contains};
ghost use Rattle.std.specs.Prelude.{IsTrue, IfOk, OnOk, OnErr, IsErrOf};
ghost use Rattle.std.specs.Option.{option_map};
ghost use Rattle.std.specs.FinMap as map;
ghost use Rattle.cpl_io.specs.Files.{bytes_of, ReadsAt, Has, OthersStand};
ghost use Rattle.cpl_io.specs.Causes.{Reading, Writing, FailedAfter, RoseAfter, one_more};
ghost use Rattle.cpl_io.specs.Memory.{IsCounted, sink_faults};
ghost use Rattle.cpl_io.specs.Sink.{AppendsFront};

use crate::failure::{Access, Failures};
use crate::named::NamedFiles;
use crate::schedule::Schedule;
use crate::{Shelf, ShelfError, Sink, SinkError};
use std::alloc::{AllocError, Global};
use std::marker::Model;

/// Files in memory. The calls of `Shelf` on it are counted from 0, and those whose numbers stand in
/// its list answer `Failed`, or `Memory` where there is no memory for a copy of their name.
#[derive(Drop)]
pub struct MemShelf {
    files: NamedFiles,
    schedule: Schedule,
    failures: Failures,
}

impl Model for MemShelf {
    ghost use Rattle.std.specs.Coded.{codes};
    ghost use Rattle.cpl_io.specs.Files.{coded_files};
    ghost use Rattle.cpl_io.specs.Memory.{MemoryShelf};
    ghost use Rattle.cpl_io.specs.Failures.{failed_call};

    ghost Value = { MemoryShelf };

    ghost coded = { Prim.hlevel (codes, coded_files) };

    ghost view = { λ s. record {
      files = s.files;
      faults = s.failures.count;
      failed = failed_call s.failures.last;
      fail = s.schedule.fail.items;
      calls = s.schedule.calls;
    } };
}

impl MemShelf {
    /// A shelf with no file and no call so far, of which the calls with the numbers of `fail` fail.
    pub fn new(alloc: Global, fail: Vec<u64>) -> MemShelf
        ensures told { IsTrue (⟦<MemShelf as Shelf>⟧.told result) }
        ensures files { ⟦<MemShelf as Shelf>⟧.files result ≡ map.empty }
        ensures faults { ⟦<MemShelf as Shelf>⟧.faults result ≡ 0 }
        ensures failed { ⟦<MemShelf as Shelf>⟧.failed result ≡ None }
        ensures fail { result.fail ≡ fail.items }
        ensures calls { result.calls ≡ 0 }
    {
        MemShelf {
            files: NamedFiles::new(alloc),
            schedule: Schedule::new(fail),
            failures: Failures::new(alloc),
        }
    }

    /// Gives the name these bytes. It is no call of `Shelf`, and counts nothing.
    pub fn store(&mut self, name: &str, bytes: &[u8]) -> Result<(), AllocError>
        ensures ok { OnOk result (Has self.new.files name.now bytes.now) }
        ensures others { OthersStand self.old.files self.new.files name.now }
        ensures rest { self.new ≡ record self.old { files = self.new.files } }
    {
        self.files.put(name, bytes)
    }

    /// The bytes of the name, and none exactly where there is no such file.
    pub fn file(&self, name: &str) -> Option<&[u8]>
        ensures { option_map (λ bytes. bytes.now) result ≡ map.get self.now.files name.now }
    {
        self.files.get(name)
    }
}

impl Shelf for MemShelf {
    ghost told = { λ _. true };

    ghost files = { λ s. s.files };

    ghost faults = { λ s. s.faults };

    ghost failed = { λ s. s.failed };

    fn read_at(&mut self, name: &str, from: u64, buf: &mut [u8]) -> Result<usize, ShelfError>
        requires { 0 < length buf.old }
        ensures files { self.new.files ≡ self.old.files }
        ensures bound { IfOk result (λ n. n ≤ length buf.new) }
        ensures bytes { IfOk result (λ n. ReadsAt (bytes_of self.old.files name.now) from n buf.new) }
        ensures faults_grow { self.old.faults ≤ self.new.faults }
        ensures cause { FailedAfter (Reading name.now) result
            self.old.faults self.new.faults self.old.failed self.new.failed }
        ensures counted { IsCounted self.old self.new result }
    {
        if self.schedule.next_fails() {
            return self.failures.fail(Access::Reading, name);
        }
        Ok(self.files.copy_from(name, from, buf))
    }

    fn begin(&mut self, name: &str) -> Result<(), ShelfError>
        ensures begun { OnOk result (Has self.new.files name.now []) }
        ensures others { OthersStand self.old.files self.new.files name.now }
        ensures faults_grow { self.old.faults ≤ self.new.faults }
        ensures cause { FailedAfter (Writing name.now) result
            self.old.faults self.new.faults self.old.failed self.new.failed }
        ensures counted { IsCounted self.old self.new result }
    {
        if self.schedule.next_fails() {
            return self.failures.fail(Access::Writing, name);
        }
        self.files.put(name, &[]).map_err(|_| ShelfError::Memory)
    }

    fn append(&mut self, name: &str, bytes: &[u8]) -> Result<(), ShelfError>
        ensures added { OnOk result
            (Has self.new.files name.now (bytes_of self.old.files name.now ++ bytes.now)) }
        ensures others { OthersStand self.old.files self.new.files name.now }
        ensures faults_grow { self.old.faults ≤ self.new.faults }
        ensures cause { FailedAfter (Writing name.now) result
            self.old.faults self.new.faults self.old.failed self.new.failed }
        ensures counted { IsCounted self.old self.new result }
    {
        if self.schedule.next_fails() {
            return self.failures.fail(Access::Writing, name);
        }
        self.files
            .extend(name, bytes)
            .map_err(|_| ShelfError::Memory)
    }
}

/// What was written, in memory. The calls of `put` are counted from 0, and exactly those whose numbers
/// stand in its list answer `Failed`.
#[derive(Drop)]
pub struct MemSink {
    bytes: Vec<u8>,
    schedule: Schedule,
    faults: u64,
}

impl Model for MemSink {
    ghost use Rattle.cpl_io.specs.Memory.{MemorySink};

    ghost Value = { MemorySink };

    ghost view = { λ s. record {
      written = s.bytes.items;
      faults = s.faults;
      fail = s.schedule.fail.items;
      calls = s.schedule.calls;
    } };
}

impl MemSink {
    /// A sink with no byte and no call so far, of which the calls with the numbers of `fail` fail.
    pub fn new(alloc: Global, fail: Vec<u64>) -> MemSink
        ensures told { IsTrue (⟦<MemSink as Sink>⟧.told result) }
        ensures written { ⟦<MemSink as Sink>⟧.written result ≡ [] }
        ensures faults { ⟦<MemSink as Sink>⟧.faults result ≡ 0 }
        ensures fail { result.fail ≡ fail.items }
        ensures calls { result.calls ≡ 0 }
    {
        MemSink {
            bytes: Vec::new(alloc),
            schedule: Schedule::new(fail),
            faults: 0,
        }
    }

    /// All that was written.
    pub fn bytes(&self) -> &[u8]
        ensures { result.now ≡ self.now.written }
    {
        self.bytes.as_slice()
    }
}

impl Sink for MemSink {
    ghost told = { λ _. true };

    ghost written = { λ s. s.written };

    ghost faults = { λ s. s.faults };

    fn put(&mut self, bytes: &[u8]) -> Result<(), SinkError>
        ensures ok { OnOk result (self.new.written ≡ self.old.written ++ bytes.now) }
        ensures err { OnErr result (AppendsFront self.old.written self.new.written bytes.now) }
        ensures faults_grow { self.old.faults ≤ self.new.faults }
        ensures cause { RoseAfter result self.old.faults self.new.faults }
        ensures faults { self.new.faults ≡ sink_faults result self.old.faults }
        ensures due { Contains self.old.fail self.old.calls → IsErrOf result SinkError.Failed }
        ensures only_due { IsErrOf result SinkError.Failed → Contains self.old.fail self.old.calls }
        ensures calls { self.new.calls ≡ one_more self.old.calls }
        ensures fail { self.new.fail ≡ self.old.fail }
    {
        if self.schedule.next_fails() {
            self.faults = self.faults.saturating_add(1);
            return Err(SinkError::Failed);
        }
        self.bytes
            .extend_from_slice(bytes)
            .map_err(|_| SinkError::Memory)
    }
}
