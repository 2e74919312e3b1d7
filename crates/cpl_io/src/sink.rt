// A line of output.
ghost use Rattle.std.specs.Prelude.{◌≡◌, ◌≤◌, ◌++◌, ℕ, Bool, List, IsTrue, OnOk, OnErr};
ghost use Rattle.cpl_io.specs.Causes.{RoseAfter};
ghost use Rattle.cpl_io.specs.Sink.{AppendsFront};

/// Why a call on a sink failed.
#[derive(Clone, Copy, Debug, PartialEq, Eq)]
pub enum SinkError {
    /// The outside failed, as an output that is full or closed.
    Failed,
    /// There was no memory.
    Memory,
}

/// What takes bytes, one after another, as the output of the command. A sink tells what was written or
/// doesn't for its whole life.
///
/// Its count of faults never falls and stays at its last value, 2^64-1. A call answers `Failed` only where
/// the count rose in that call (or stood at that value). Defined by this project.
pub trait Sink {
    /// Whether it tells what was written.
    ghost told: { Self → Bool };

    /// What was written, where it is told.
    ghost written: { Self → List ℕ };

    /// How often the outside has failed.
    ghost faults: { Self → ℕ };

    /// Appends all the bytes. After an `Err` a front of them was appended.
    fn put(&mut self, bytes: &[u8]) -> Result<(), SinkError>
        ensures still_tells { told self.new ≡ told self.old }
        ensures ok { IsTrue (told self.old) → OnOk result (written self.new ≡ written self.old ++ bytes.now) }
        ensures err { IsTrue (told self.old)
            → OnErr result (AppendsFront (written self.old) (written self.new) bytes.now) }
        ensures faults_grow { faults self.old ≤ faults self.new }
        ensures cause { RoseAfter result (faults self.old) (faults self.new) };
}
