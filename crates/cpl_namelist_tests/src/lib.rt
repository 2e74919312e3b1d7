//! Tests of the namelist and its calendar: each expected answer was worked out by hand from the format's words.
#![tactic(auto)]

#[cfg(test)]
mod civil;
#[cfg(test)]
mod faults;
#[cfg(test)]
mod long;
#[cfg(test)]
mod texts;
#[cfg(test)]
mod values;
