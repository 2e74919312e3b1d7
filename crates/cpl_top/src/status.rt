// What the program answers.
ghost use Rattle.std.specs.Prelude.{◌≡◌};
ghost use Rattle.cpl_top.specs.Judging.{grid_status, names_status, plan_status, start_status};
ghost use Rattle.cpl_top.specs.declared.status.Status.TheVariants.{Memory};

use cpl_fixed::{MOST_GRID_BYTES, MOST_NAMES_BYTES, MOST_START_BYTES, Quantity};
use cpl_gridfile::GridError;
use cpl_namelist::NamesError;
use cpl_plan::PlanError;
use cpl_restart::StartError;
use std::alloc::AllocError;
use std::fmt;
use thiserror::Error;

/// A file of a command, by what it is to the command.
#[derive(Clone, Copy, Debug, PartialEq, Eq)]
pub enum Which {
    Grid,
    Names,
    Start,
    Stocks,
    Exchanges,
    Restart,
}

impl Which {
    ghost use Rattle.cpl_top.specs.Limits.{limit_of};

    /// The most bytes that this file may have where it is read: 64 MiB for a grid's text, 64 KiB for a namelist and 256 MiB for
    /// a state. The others are written and never read.
    pub fn limit(self) -> u64
        ensures { result ≡ limit_of self }
    {
        match self {
            Which::Grid => MOST_GRID_BYTES,
            Which::Names => MOST_NAMES_BYTES,
            Which::Start => MOST_START_BYTES,
            Which::Stocks | Which::Exchanges | Which::Restart => 0,
        }
    }
}

impl fmt::Display for Which {
    fn fmt<W: fmt::Write>(&self, f: &mut fmt::Formatter<W>) -> fmt::Result {
        f.write_str(match self {
            Which::Grid => "grid",
            Which::Names => "names",
            Which::Start => "start",
            Which::Stocks => "stocks",
            Which::Exchanges => "exchanges",
            Which::Restart => "restart",
        })
    }
}

/// The answer of a command. Its number is the exit status of the program, and its text goes to standard error.
///
/// The statuses, their order and their texts are defined by this project.
#[derive(Clone, Copy, Debug, PartialEq, Eq, Error)]
pub enum Status {
    /// All files and the line are written.
    #[error("done")]
    Done,
    /// The words are no command.
    #[error("usage")]
    Usage,
    /// The outside failed in reading this file.
    #[error("cannot read {0}")]
    Read(Which),
    /// This file has more bytes than its limit.
    #[error("too long: {0}")]
    TooLong(Which),
    /// The first broken rule of the grid.
    #[error("grid: {0}")]
    Grid(GridError),
    /// The first fault of the namelist, or of a layout that words or a namelist ask for.
    #[error("names: {0}")]
    Names(NamesError),
    /// The first fault of the start's bytes.
    #[error("start: {0}")]
    Start(StartError),
    /// The first total above 2^62 - 1.
    #[error("budget: {0} {1}")]
    Budget(Quantity, i128),
    /// The outside failed in writing this file.
    #[error("cannot write {0}")]
    Write(Which),
    /// The outside failed in printing the line.
    #[error("cannot print")]
    Print,
    /// There was no memory.
    #[error("no memory")]
    Memory,
}

impl From<AllocError> for Status {
    ghost from_gives = { λ _ status. status ≡ Memory };

    fn from(_error: AllocError) -> Status {
        Status::Memory
    }
}

impl From<GridError> for Status {
    ghost from_gives = { λ fault status. status ≡ grid_status fault };

    fn from(fault: GridError) -> Status {
        match fault {
            GridError::Memory => Status::Memory,
            fault => Status::Grid(fault),
        }
    }
}

impl From<NamesError> for Status {
    ghost from_gives = { λ fault status. status ≡ names_status fault };

    fn from(fault: NamesError) -> Status {
        match fault {
            NamesError::Memory => Status::Memory,
            fault => Status::Names(fault),
        }
    }
}

impl From<StartError> for Status {
    ghost from_gives = { λ fault status. status ≡ start_status fault };

    fn from(fault: StartError) -> Status {
        match fault {
            StartError::Memory => Status::Memory,
            fault => Status::Start(fault),
        }
    }
}

impl From<PlanError> for Status {
    ghost from_gives = { λ fault status. status ≡ plan_status fault };

    // Layouts and the date are faults of the namelist.
    fn from(fault: PlanError) -> Status {
        match fault {
            PlanError::Layout(component, fault) => Status::Names(NamesError::Layout(
                component, fault,
            )),
            PlanError::Date(seconds) => Status::Names(NamesError::Date(seconds)),
            PlanError::Budget(quantity, total) => Status::Budget(quantity, total),
            PlanError::Memory => Status::Memory,
        }
    }
}

impl Status {
    ghost use Rattle.cpl_top.specs.Numbers.{status_number};

    /// The exit status of the program.
    pub fn number(&self) -> u8
        ensures { result ≡ status_number self.now }
    {
        match self {
            Status::Done => 0,
            Status::Usage => 1,
            Status::Read(_) => 2,
            Status::TooLong(_) => 3,
            Status::Grid(_) => 4,
            Status::Names(_) => 5,
            Status::Start(_) => 6,
            Status::Budget(_, _) => 7,
            Status::Write(_) => 8,
            Status::Print => 9,
            Status::Memory => 10,
        }
    }
}
