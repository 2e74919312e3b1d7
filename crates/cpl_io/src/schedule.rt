// Which calls are to fail.
ghost use Rattle.std.specs.Prelude.{◌≡◌, ◌↔◌, IsTrue, Contains};
ghost use Rattle.cpl_io.specs.Causes.{one_more};

/// Calls that are counted from 0, some of which are to fail. The count stays at its last value.
#[derive(Drop)]
pub(crate) struct Schedule {
    pub(crate) fail: Vec<u64>,
    pub(crate) calls: u64,
}

impl Schedule {
    /// No call so far. Those whose numbers stand in the list are to fail.
    pub(crate) fn new(fail: Vec<u64>) -> Schedule
        ensures fail { result.fail.items ≡ fail.items }
        ensures calls { result.calls ≡ 0 }
    {
        Schedule { fail, calls: 0 }
    }

    /// Counts a call, and says whether it is to fail.
    pub(crate) fn next_fails(&mut self) -> bool
        ensures due { IsTrue result ↔ Contains self.old.fail.items self.old.calls }
        ensures calls { self.new.calls ≡ one_more self.old.calls }
        ensures fail { self.new.fail.items ≡ self.old.fail.items }
    {
        let due = self.fail.contains(&self.calls);
        self.calls = self.calls.saturating_add(1);
        due
    }
}
