// The call that failed last, and how many did.
ghost use Rattle.std.specs.Prelude.{◌≡◌, ◌≤◌, None, IsErr};
ghost use Rattle.cpl_io.specs.Causes.{FailedAfter};
ghost use Rattle.cpl_io.specs.Memory.{shelf_faults};
ghost use Rattle.cpl_io.specs.Failures.{access_call, failed_call};

use crate::ShelfError;
use std::alloc::Global;
use std::io;

/// What a call does to a file.
#[derive(Clone, Copy)]
pub(crate) enum Access {
    Reading,
    Writing,
}

/// A call that failed, with its name.
#[derive(Drop)]
pub(crate) struct FailedCall {
    pub(crate) access: Access,
    pub(crate) name: String,
}

/// How many calls failed, and the last of them. The count stays at its last value.
#[derive(Drop)]
pub(crate) struct Failures {
    alloc: Global,
    pub(crate) count: u64,
    pub(crate) last: Option<FailedCall>,
}

impl Failures {
    /// No failure so far.
    pub(crate) fn new(alloc: Global) -> Failures
        ensures count { result.count ≡ 0 }
        ensures last { failed_call result.last ≡ None }
    {
        Failures {
            alloc,
            count: 0,
            last: None,
        }
    }

    /// What a call that failed answers: `Failed`, or `Memory` where its name can't be kept.
    pub(crate) fn fail<T>(&mut self, access: Access, name: &str) -> Result<T, ShelfError>
        ensures faults_grow { self.old.count ≤ self.new.count }
        ensures count { self.new.count ≡ shelf_faults result self.old.count }
        ensures cause { FailedAfter (access_call access name.now) result self.old.count self.new.count
            (failed_call self.old.last) (failed_call self.new.last) }
        ensures err { IsErr result }
    {
        let name = String::from_str(self.alloc, name).map_err(|_| ShelfError::Memory)?;
        self.count = self.count.saturating_add(1);
        self.last = Some(FailedCall { access, name });
        Err(ShelfError::Failed)
    }

    /// What a call answers that met this error.
    pub(crate) fn fail_by<T>(
        &mut self,
        error: ShelfError,
        access: Access,
        name: &str,
    ) -> Result<T, ShelfError>
        ensures faults_grow { self.old.count ≤ self.new.count }
        ensures cause { FailedAfter (access_call access name.now) result self.old.count self.new.count
            (failed_call self.old.last) (failed_call self.new.last) }
        ensures err { IsErr result }
    {
        match error {
            ShelfError::Memory => Err(ShelfError::Memory),
            ShelfError::Failed => self.fail(access, name),
        }
    }
}

/// An error of the system, as a shelf answers it: `Memory` where it was want of memory.
pub(crate) fn shelf_error(error: &io::Error) -> ShelfError {
    match error.kind() {
        io::ErrorKind::OutOfMemory => ShelfError::Memory,
        _ => ShelfError::Failed,
    }
}
