// A namelist as a run uses it.
ghost use Rattle.std.specs.Prelude.{◌≡◌, ◌-◌, ◌<◌, ◌^◌, length, map, pos, Ok, Err, MatchResult, FitsSigned, IfOk};
ghost use Rattle.std.specs.Int.{w64};
ghost use Rattle.std.specs.List.{range_with_len};
ghost use Rattle.cpl_namelist.specs.Settings.{choices, number};
ghost use Rattle.cpl_namelist.specs.Names.{signed_numbers, divided, need, at_most, steps_of, rates_of, layout_of, run_length, missing, names_with, names_of, reading};
ghost use Rattle.cpl_namelist.specs.Grammar.{HasOrder};
ghost use Rattle.cpl_namelist.specs.Ranges.{AreNames, HasTimes};

use crate::fault::{NamesError, Required, StepFault};
use crate::places::*;
use crate::settings::{Settings, settings_of};
use crate::syntax::syntax_fault;
use cpl_fixed::{MOST_FAST_STEPS, MOST_OCEAN_STEPS, MOST_STEPS, Rates};

/// What a namelist says of a run. `fast`, `ocean_steps` and `steps` are the counts M, Q and N.
#[derive(Clone, Copy, Debug, PartialEq, Eq)]
pub struct Names {
    /// The date and the time of day of elapsed second 0: year, month, day, hour, minute, second (`current_date`, known
    /// from FMS).
    pub start: [i64; 6],
    /// How many steps of the air a coupling step has, 1 to 1,000.
    pub fast: u32,
    /// How many steps of the ocean a coupling step has, 1 to 100.
    pub ocean_steps: u32,
    /// How many coupling steps the run has, 0 to 10,000.
    pub steps: u32,
    /// The seconds of a coupling step (`dt_cpld`, known from FMS), 1 to 2,678,400.
    pub dt: i64,
    /// The pieces along x and y, each 1 to 64, of atmos, land, ice and ocean.
    pub layouts: [(u32, u32); 4],
    /// The rates of the formulas.
    pub rates: Rates,
}

// How many steps there are: of the air and of the ocean in a coupling step, and coupling steps.
#[derive(Clone, Copy)]
struct StepCounts {
    fast: u32,
    ocean: u32,
    count: u32,
}

// How often a number goes into another that it divides; the fault where it doesn't.
fn divided(step: StepFault, part: u32, whole: u64) -> Result<u64, NamesError>
    ensures { result ≡ need step (divided part whole) }
{
    if part > 0 && whole % u64::from(part) == 0 {
        Ok(whole / u64::from(part))
    } else {
        Err(NamesError::Step(step))
    }
}

fn at_most(step: StepFault, limit: u32, count: u64) -> Result<u32, NamesError>
    ensures { result ≡ at_most step limit count }
{
    if count <= u64::from(limit) {
        Ok(count as u32)
    } else {
        Err(NamesError::Step(step))
    }
}

// The counts of steps, from the seconds of each and of the run.
fn steps_of(atmos: u32, cpld: u32, ocean: u32, run: u64) -> Result<StepCounts, NamesError>
    ensures { result ≡ steps_of atmos cpld ocean run }
{
    let fast = divided(StepFault::Atmos, atmos, u64::from(cpld))?;
    let ocean = divided(StepFault::Ocean, ocean, u64::from(cpld))?;
    let count = divided(StepFault::Run, cpld, run)?;
    let fast = at_most(StepFault::FastCount, MOST_FAST_STEPS, fast)?;
    let ocean = at_most(StepFault::OceanCount, MOST_OCEAN_STEPS, ocean)?;
    let count = at_most(StepFault::Count, MOST_STEPS, count)?;
    Ok(StepCounts { fast, ocean, count })
}

impl Settings {
    // The numbers of the name at this place, as many as it has.
    fn signed_numbers<const N: usize>(&self, place: usize) -> [i64; N]
        requires { place < 31 }
        ensures { result ≡ signed_numbers (choices self.now) place N }
    {
        let mut numbers = [0i64; N];
        for k in 0..N {
            numbers[k] = i64::from(self.number(place, k));
        }
        numbers
    }

    // The number of the name at this place.
    fn signed(&self, place: usize) -> i64
        requires { place < 31 }
        ensures value { result ≡ pos (number (choices self.now) place 0) }
        ensures fits { FitsSigned w64 result }
    {
        i64::from(self.number(place, 0))
    }

    fn layout(&self, place: usize) -> (u32, u32)
        requires { place < 31 }
        ensures { result ≡ layout_of (choices self.now) place }
    {
        (self.number(place, 0), self.number(place, 1))
    }

    fn rates(&self) -> Rates
        ensures { result ≡ rates_of (choices self.now) }
    {
        Rates {
            ca: self.signed(CA),
            kh: self.signed(KH),
            ke: self.signed(KE),
            hs: self.signed(HS),
            ko: self.signed(KO),
            rc: self.signed(RC),
            month: self.signed_numbers(MONTH),
            cl: self.signed(CL),
            cap: self.signed(CAP),
            land_albedo: self.signed(LAND_ALBEDO),
            h0: self.signed(H0),
            bounds: self.signed_numbers(BOUNDS),
            ice_albedo: self.signed(ICE_ALBEDO),
            water_albedo: self.signed(WATER_ALBEDO),
            slope: self.number(SLOPE, 0),
            mix: self.number(MIX, 0),
        }
    }

    // The first name without a default that isn't given.
    fn missing(&self) -> Option<Required>
        ensures { result ≡ missing (choices self.now) }
    {
        if !self.is_given(CURRENT_DATE) {
            Some(Required::CurrentDate)
        } else if !self.is_given(CALENDAR) {
            Some(Required::Calendar)
        } else if !self.is_given(DT_ATMOS) {
            Some(Required::DtAtmos)
        } else if !self.is_given(DT_CPLD) {
            Some(Required::DtCpld)
        } else if !self.is_given(DT_OCEAN) {
            Some(Required::DtOcean)
        } else {
            None
        }
    }

    // The seconds of the run.
    fn run_length(&self) -> u64
        ensures { result ≡ run_length (choices self.now) }
    {
        86_400 * u64::from(self.number(DAYS, 0))
            + 3_600 * u64::from(self.number(HOURS, 0))
            + 60 * u64::from(self.number(MINUTES, 0))
            + u64::from(self.number(SECONDS, 0))
    }

    fn names_with(&self, steps: StepCounts) -> Names
        ensures { result ≡ names_with (choices self.now) steps }
    {
        Names {
            start: self.signed_numbers(CURRENT_DATE),
            fast: steps.fast,
            ocean_steps: steps.ocean,
            steps: steps.count,
            dt: self.signed(DT_CPLD),
            layouts: [
                self.layout(ATMOS_LAYOUT),
                self.layout(LAND_LAYOUT),
                self.layout(ICE_LAYOUT),
                self.layout(OCEAN_LAYOUT),
            ],
            rates: self.rates(),
        }
    }

    fn names(&self) -> Result<Names, NamesError>
        ensures { result ≡ names_of (choices self.now) }
    {
        if let Some(required) = self.missing() {
            return Err(NamesError::Missing(required));
        }
        let atmos = self.number(DT_ATMOS, 0);
        let cpld = self.number(DT_CPLD, 0);
        let ocean = self.number(DT_OCEAN, 0);
        let steps = steps_of(atmos, cpld, ocean, self.run_length())?;
        Ok(self.names_with(steps))
    }
}

impl Names {
    /// The names that a text gives, or the first fault.
    pub fn read(bytes: &[u8]) -> Result<Names, NamesError>
        requires { length bytes.now < 2 ^ 32 - 1 }
        // It is what the definition gives: the names, or the first fault.
        ensures exact { result ≡ reading bytes.now }
        // `Syntax` comes exactly where the tokens are no namelist, with the line of the first that can't follow.
        ensures syntax { HasOrder bytes.now result }
        // What is read is in its ranges, and the steps fill the time that the text gives.
        ensures ranges { IfOk result AreNames }
        ensures times { IfOk result (HasTimes bytes.now) }
    {
        if let Some(line) = syntax_fault(bytes) {
            return Err(NamesError::Syntax(line));
        }
        settings_of(bytes)?.names()
    }
}
