// What a namelist sets.
ghost use Rattle.std.specs.Prelude.{◌≡◌, ◌+◌, ◌-◌, ◌<◌, ◌^◌, length, drop, Ok, Err, MatchResult};
ghost use Rattle.cpl_namelist.specs.Tokens.{seen, tokens, tokens_from};
ghost use Rattle.cpl_namelist.specs.Numbers.{listed};
ghost use Rattle.cpl_namelist.specs.Settings.{choices, nothing, is_given, number, default_of, heading, assignment, token_judged, judged};

use crate::fault::NamesError;
use crate::group::{Group, group_named};
use crate::numbers::{Numbers, numbers_in};
use crate::table::{Row, name_in_group, row_at};
use crate::token::{Cursor, Kind, Token, next_token};

/// The group that is open, which groups came so far, and the numbers of the names that were given so far, by their
/// places in the tables.
#[derive(Drop)]
pub struct Settings {
    group: Group,
    groups: [bool; 6],
    given: [Option<Numbers>; 31],
}

// A name without the mark in front.
fn unmarked(text: &[u8]) -> &[u8]
    ensures { result.now ≡ drop 1 text.now }
{
    match text {
        [_, name @ ..] => name,
        [] => text,
    }
}

// The default of a row.
fn default_of(row: Row) -> Numbers
    ensures { listed result ≡ default_of row }
{
    Numbers {
        places: row.default.unwrap_or([0; 12]),
        count: row.count,
    }
}

impl Settings {
    pub fn new() -> Settings
        ensures { choices result ≡ nothing }
    {
        Settings {
            group: Group::Coupler,
            groups: [false; 6],
            given: [None; 31],
        }
    }

    /// Whether the name at this place was given.
    pub fn is_given(&self, place: usize) -> bool
        requires { place < 31 }
        ensures { result ≡ is_given (choices self.now) place }
    {
        self.given[place].is_some()
    }

    /// A number of the name at this place, given or by default; 0 past the last.
    pub fn number(&self, place: usize, k: usize) -> u32
        requires { place < 31 }
        ensures { result ≡ number (choices self.now) place k }
    {
        match self.given[place] {
            Some(numbers) => numbers.at(k),
            None => default_of(row_at(place)).at(k),
        }
    }

    // Opens the group of a heading.
    fn open(&mut self, token: Token) -> Result<(), NamesError>
        ensures { MatchResult result
            (λ _. heading (choices self.old) (seen token.entry) ≡ Ok (choices self.new))
            (λ fault. heading (choices self.old) (seen token.entry) ≡ Err fault) }
    {
        let Some(group) = group_named(unmarked(token.text)) else {
            return Err(NamesError::UnknownGroup(token.line));
        };
        if self.groups[group.place()] {
            return Err(NamesError::Twice(token.line));
        }
        self.group = group;
        self.groups[group.place()] = true;
        Ok(())
    }

    // Takes the values after a name of the open group.
    fn assign(&mut self, token: Token, line: u32, rest: &[u8]) -> Result<(), NamesError>
        requires { line + length rest.now < 2 ^ 32 }
        ensures { MatchResult result
            (λ _. assignment (choices self.old) (seen token.entry) (tokens_from 0 line rest.now) ≡ Ok (choices self.new))
            (λ fault. assignment (choices self.old) (seen token.entry) (tokens_from 0 line rest.now) ≡ Err fault) }
    {
        let Some(place) = name_in_group(self.group, token.text) else {
            return Err(NamesError::UnknownName(token.line));
        };
        if self.is_given(place) {
            return Err(NamesError::Twice(token.line));
        }
        let Some(numbers) = numbers_in(row_at(place), line, rest) else {
            return Err(NamesError::Value(token.line));
        };
        self.given[place] = Some(numbers);
        Ok(())
    }

    // Takes a token, with the rest.
    fn take(&mut self, token: Token, line: u32, rest: &[u8]) -> Result<(), NamesError>
        requires { line + length rest.now < 2 ^ 32 }
        ensures { MatchResult result
            (λ _. token_judged (choices self.old) (seen token.entry) (tokens_from 0 line rest.now) ≡ Ok (choices self.new))
            (λ fault. token_judged (choices self.old) (seen token.entry) (tokens_from 0 line rest.now) ≡ Err fault) }
    {
        match token.kind {
            Kind::Group => self.open(token),
            Kind::Word => self.assign(token, line, rest),
            _ => Ok(()),
        }
    }
}

/// What a text whose tokens are in order sets, or the first fault of its headings and assignments.
pub fn settings_of(bytes: &[u8]) -> Result<Settings, NamesError>
    requires { length bytes.now < 2 ^ 32 - 1 }
    ensures { MatchResult result
        (λ settings. judged nothing (tokens bytes.now) ≡ Ok (choices settings))
        (λ fault. judged nothing (tokens bytes.now) ≡ Err fault) }
{
    let mut settings = Settings::new();
    let mut cursor = Cursor {
        line: 1,
        rest: bytes,
    };
    while let Some((token, after)) = next_token(cursor.line, cursor.rest) {
        settings.take(token, after.line, after.rest)?;
        cursor = after;
    }
    Ok(settings)
}
