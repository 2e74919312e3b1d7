// The order in which tokens may stand.
ghost use Rattle.std.specs.Prelude.{◌≡◌, ◌+◌, ◌<◌, ◌-◌, ◌^◌, length};
ghost use Rattle.cpl_namelist.specs.Tokens.{tokens, last_line};
ghost use Rattle.cpl_namelist.specs.Syntax.{follow, end_fault, syntax_fault};

use crate::token::{Cursor, Kind, next_token};

/// What the tokens so far leave open.
#[derive(Clone, Copy, Debug, PartialEq, Eq)]
pub enum State {
    /// All groups are closed.
    Outside,
    /// In a group, before its first name.
    Inside,
    /// After a name.
    Named,
    /// After `=`.
    Assigned,
    /// After a value.
    Valued,
    /// After a value and its comma.
    Separated,
}

// Where a token leads, or nothing where it can't stand there.
fn follow(place: State, kind: Kind) -> Option<State>
    ensures { result ≡ follow place kind }
{
    match kind {
        Kind::Group => match place {
            State::Outside => Some(State::Inside),
            _ => None,
        },
        Kind::Word => match place {
            State::Inside | State::Valued | State::Separated => Some(State::Named),
            _ => None,
        },
        Kind::Slash => match place {
            State::Inside | State::Valued | State::Separated => Some(State::Outside),
            _ => None,
        },
        Kind::Equals => match place {
            State::Named => Some(State::Assigned),
            _ => None,
        },
        Kind::Integer | Kind::Repeat | Kind::Text | Kind::Logical => match place {
            State::Assigned | State::Valued | State::Separated => Some(State::Valued),
            _ => None,
        },
        Kind::Comma => match place {
            State::Valued => Some(State::Separated),
            _ => None,
        },
        Kind::Stray => None,
    }
}

// One more than the number of line feeds.
fn last_line(bytes: &[u8]) -> u32
    requires { length bytes.now < 2 ^ 32 - 1 }
    ensures { result ≡ last_line bytes.now }
{
    1 + bytes.iter().filter(|b| **b == b'\n').count() as u32
}

// The last line, where the text ends before a group does.
fn end_fault(last: u32, place: State) -> Option<u32>
    ensures { result ≡ end_fault last place }
{
    match place {
        State::Outside => None,
        _ => Some(last),
    }
}

/// The line of the first token that can't follow those before it, or the last line where the text ends too early.
pub fn syntax_fault(bytes: &[u8]) -> Option<u32>
    requires { length bytes.now < 2 ^ 32 - 1 }
    ensures { result ≡ syntax_fault (last_line bytes.now) State.Outside (tokens bytes.now) }
{
    let mut place = State::Outside;
    let mut cursor = Cursor {
        line: 1,
        rest: bytes,
    };
    while let Some((token, after)) = next_token(cursor.line, cursor.rest) {
        match follow(place, token.kind) {
            Some(next) => place = next,
            None => return Some(token.line),
        }
        cursor = after;
    }
    end_fault(last_line(bytes), place)
}
