// Named files.
ghost use Rattle.std.specs.Prelude.{◌≡◌, ◌<◌, ◌≤◌, ◌++◌, ℕ, Bool, [], Option, length, IsTrue, IfOk, OnOk};
ghost use Rattle.cpl_io.specs.Files.{Files, bytes_of, ReadsAt, Has, OthersStand};
ghost use Rattle.cpl_io.specs.Causes.{Call, Reading, Writing, FailedAfter};
ghost use Rattle.cpl_io.specs.declared.shelf.ShelfError.TheVariants as shelf;

use std::alloc::AllocError;

/// Why a call on a shelf failed.
#[derive(Clone, Copy, Debug, PartialEq, Eq)]
pub enum ShelfError {
    /// The outside failed, as a disk that is full or a file that isn't there.
    Failed,
    /// There was no memory.
    Memory,
}

impl From<AllocError> for ShelfError {
    ghost from_gives = { λ _ gives. gives ≡ shelf.Memory };

    fn from(_error: AllocError) -> ShelfError {
        ShelfError::Memory
    }
}

/// Files by their names, as the coupler sees them. A name is a text of any bytes; to real files it is a
/// path. A shelf tells its files or doesn't for its whole life. A name that isn't among the files has no
/// bytes.
///
/// Its count of faults never falls and stays at its last value, 2^64-1. A call answers `Failed` only where
/// the count rose in that call (or stood at that value), and that call is then the one that failed last.
/// Defined by this project.
pub trait Shelf {
    /// Whether it tells what its files hold.
    ghost told: { Self → Bool };

    /// The files by their names, where they are told.
    ghost files: { Self → Files };

    /// How often the outside has failed.
    ghost faults: { Self → ℕ };

    /// The last call that answered `Failed`: a reading or a writing, with its name.
    ghost failed: { Self → Option Call };

    /// Reads the bytes of a name from place `from` on into the front of `buf`, and says how many: 0 exactly
    /// where no byte stands at or after that place. It changes no file.
    fn read_at(&mut self, name: &str, from: u64, buf: &mut [u8]) -> Result<usize, ShelfError>
        requires { 0 < length buf.old }
        ensures still_tells { told self.new ≡ told self.old }
        ensures files { files self.new ≡ files self.old }
        ensures bound { IfOk result (λ n. n ≤ length buf.new) }
        ensures bytes { IsTrue (told self.old)
            → IfOk result (λ n. ReadsAt (bytes_of (files self.old) name.now) from n buf.new) }
        ensures faults_grow { faults self.old ≤ faults self.new }
        ensures cause { FailedAfter (Reading name.now) result
            (faults self.old) (faults self.new) (failed self.old) (failed self.new) };

    /// Leaves the name with no bytes, as a file that is there. All other names stand. After an `Err` the
    /// name may have any bytes.
    fn begin(&mut self, name: &str) -> Result<(), ShelfError>
        ensures still_tells { told self.new ≡ told self.old }
        ensures begun { IsTrue (told self.old) → OnOk result (Has (files self.new) name.now []) }
        ensures others { IsTrue (told self.old) → OthersStand (files self.old) (files self.new) name.now }
        ensures faults_grow { faults self.old ≤ faults self.new }
        ensures cause { FailedAfter (Writing name.now) result
            (faults self.old) (faults self.new) (failed self.old) (failed self.new) };

    /// Adds all the bytes at the name's end. All other names stand. After an `Err` the name may have any
    /// bytes.
    fn append(&mut self, name: &str, bytes: &[u8]) -> Result<(), ShelfError>
        ensures still_tells { told self.new ≡ told self.old }
        ensures added { IsTrue (told self.old)
            → OnOk result (Has (files self.new) name.now (bytes_of (files self.old) name.now ++ bytes.now)) }
        ensures others { IsTrue (told self.old) → OthersStand (files self.old) (files self.new) name.now }
        ensures faults_grow { faults self.old ≤ faults self.new }
        ensures cause { FailedAfter (Writing name.now) result
            (faults self.old) (faults self.new) (failed self.old) (failed self.new) };
}
