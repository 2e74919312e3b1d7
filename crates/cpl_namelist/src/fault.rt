// What can be wrong with a namelist.
use cpl_fixed::{Component, LayoutError};
use std::fmt;
use thiserror::Error;

/// The rule on the lengths of steps that a namelist breaks.
#[derive(Clone, Copy, Debug, PartialEq, Eq)]
pub enum StepFault {
    /// The air's step doesn't divide the coupling step.
    Atmos,
    /// The ocean's step doesn't divide the coupling step.
    Ocean,
    /// The coupling step doesn't divide the length of the run.
    Run,
    /// There are more than 1,000 steps of the air in a coupling step.
    FastCount,
    /// There are more than 100 steps of the ocean in a coupling step.
    OceanCount,
    /// There are more than 10,000 coupling steps.
    Count,
}

impl fmt::Display for StepFault {
    fn fmt<W: fmt::Write>(&self, f: &mut fmt::Formatter<W>) -> fmt::Result {
        f.write_str(match self {
            StepFault::Atmos => "atmos",
            StepFault::Ocean => "ocean",
            StepFault::Run => "run",
            StepFault::FastCount => "fastcount",
            StepFault::OceanCount => "oceancount",
            StepFault::Count => "count",
        })
    }
}

/// A name that has no default. All but `dt_ocean` are known from FMS.
#[derive(Clone, Copy, Debug, PartialEq, Eq)]
pub enum Required {
    CurrentDate,
    Calendar,
    DtAtmos,
    DtCpld,
    DtOcean,
}

impl fmt::Display for Required {
    fn fmt<W: fmt::Write>(&self, f: &mut fmt::Formatter<W>) -> fmt::Result {
        f.write_str(match self {
            Required::CurrentDate => "current_date",
            Required::Calendar => "calendar",
            Required::DtAtmos => "dt_atmos",
            Required::DtCpld => "dt_cpld",
            Required::DtOcean => "dt_ocean",
        })
    }
}

/// Why a namelist is refused. A line is counted from 1.
#[derive(Clone, Copy, Debug, PartialEq, Eq, Error)]
pub enum NamesError {
    /// The first token that can't follow those before it stands on this line, or the text ends on it too early.
    #[error("Syntax {0}")]
    Syntax(u32),
    /// The heading on this line names no group.
    #[error("UnknownGroup {0}")]
    UnknownGroup(u32),
    /// The assignment on this line is to a name that its group doesn't have.
    #[error("UnknownName {0}")]
    UnknownName(u32),
    /// The heading or the assignment on this line is of a group or a name that came before.
    #[error("Twice {0}")]
    Twice(u32),
    /// The values of the assignment on this line are wrong in number, kind or range.
    #[error("Value {0}")]
    Value(u32),
    /// This name isn't given, and has no default.
    #[error("Missing {0}")]
    Missing(Required),
    /// This rule on the lengths of steps is broken.
    #[error("Step {0}")]
    Step(StepFault),
    /// The layout of this component doesn't fit. Reading a namelist never answers this.
    #[error("Layout {0} {1}")]
    Layout(Component, LayoutError),
    /// The run would end this many seconds after its start, past the year 9999. Reading a namelist never answers this.
    #[error("Date {0}")]
    Date(i64),
    /// Out of memory. Reading a namelist never answers this.
    #[error("Memory")]
    Memory,
}
