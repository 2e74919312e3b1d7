// How long the parts of a script are.
ghost use Rattle.std.specs.Prelude.{◌≡◌, ◌+◌, ◌*◌, ◌<◌, ◌≤◌, ◌⊎◌, ◌==◌, true, false, if◌then◌else◌};
ghost use Rattle.cpl_namelist.specs.Ranges.{AreNames};
ghost use Rattle.cpl_wires.specs.Lengths.{AreShort, opens_by, closes_by, step_size, begin_of};

use crate::parts::Lengths;
use cpl_namelist::Names;

impl Lengths {
    // How long the opening of a coupling step is.
    pub(crate) fn opens(&self, is_first: bool) -> u64
        ensures { result ≡ opens_by self.now is_first }
    {
        if is_first {
            self.first_opening
        } else {
            self.opening
        }
    }

    // How long its closing is.
    pub(crate) fn closes(&self, is_last: bool) -> u64
        ensures { result ≡ closes_by self.now is_last }
    {
        if is_last {
            self.last_closing
        } else {
            self.closing
        }
    }

    // How long a coupling step is, with the sums after it.
    pub(crate) fn step_size(&self, names: &Names, is_first: bool, is_last: bool) -> u64
        requires names { AreNames names.now }
        requires short { AreShort self.now }
        ensures size { result ≡ step_size names.now self.now is_first is_last }
        ensures few { result ≤ 400_000_000 }
    {
        let fasts = u64::from(names.fast) * self.fast;
        let oceans = u64::from(names.ocean_steps) * self.ocean;
        let opens = self.opens(is_first);
        let closes = self.closes(is_last);
        opens + fasts + oceans + closes + self.summing
    }

    // How many actions of coupling steps come before a coupling step.
    pub(crate) fn begin_of(&self, names: &Names, step: u32) -> u64
        requires names { AreNames names.now }
        requires short { AreShort self.now }
        requires step { step ≤ 10_000 }
        ensures begin { result ≡ begin_of names.now self.now step }
        ensures few { result ≤ 4_000_000_000_000 }
    {
        if step == 0 {
            return 0;
        }
        let first = self.step_size(names, true, false);
        first + u64::from(step - 1) * self.step_size(names, false, false)
    }

    // The coupling step that an action is of, by its number after the first sums, and its number there.
    pub(crate) fn step_at(&self, names: &Names, m: u64) -> (u32, u64)
        requires names { AreNames names.now }
        requires short { AreShort self.now }
        requires some { 1 ≤ names.now.steps }
        ensures within { result.0 < names.now.steps }
        ensures place { m ≡ begin_of names.now self.now result.0 + result.1 }
        ensures there { (result.1 < step_size names.now self.now (result.0 == 0) false) ⊎ (result.0 + 1 ≡ names.now.steps) }
    {
        let first = self.step_size(names, true, false);
        if m < first || names.steps == 1 {
            return (0, m);
        }
        let past = m - first;
        let size = self.step_size(names, false, false);
        let step = (past / size).min(u64::from(names.steps - 2));
        (step as u32 + 1, past - step * size)
    }
}
