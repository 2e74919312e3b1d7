// The tokens of a namelist's text (after Fortran's namelist, in a profile defined by this project).
ghost use Rattle.std.specs.Prelude.{◌≡◌, ◌+◌, ◌<◌, ◌≤◌, ◌^◌, false, max, length, take, Option, IfSome, option_map};
ghost use Rattle.std.specs.Char.{is_ascii_alphabetic};
ghost use Rattle.cpl_namelist.specs.Tokens.{begins, front_len, is_plain, times_len, after_mark, is_word_byte, word_len, group_len, digits_len, integer_len, repeat_len, quoted_len, text_len, logical_len, same_word, form_or, form_of, is_gap, place, past_gap, comment_len, mark_of, NextIs, tokens_from};

/// What a token is.
#[derive(Clone, Copy, Debug, PartialEq, Eq)]
pub enum Kind {
    /// `&` and the name of a group.
    Group,
    /// The name of an assignment.
    Word,
    Equals,
    Comma,
    Slash,
    Integer,
    /// `r*c`, which stands for r times c.
    Repeat,
    Text,
    Logical,
    /// A byte that begins no token.
    Stray,
}

/// A token, with the line that it stands on, from 1, and its bytes.
#[derive(Clone, Copy)]
pub struct Token<'a> {
    pub kind: Kind,
    pub line: u32,
    pub text: &'a [u8],
}

/// What is left to read of a text, and the line on which that begins.
#[derive(Clone, Copy)]
pub struct Cursor<'a> {
    pub line: u32,
    pub rest: &'a [u8],
}

// The kind of the token in front of a text, and how many bytes it takes.
#[derive(Clone, Copy)]
struct Form {
    kind: Kind,
    len: usize,
}

/// Whether two words are the same, case aside.
pub fn same_word(a: &[u8], b: &[u8]) -> bool
    ensures { result ≡ same_word a.now b.now }
{
    a.eq_ignore_ascii_case(b)
}

fn is_word_byte(byte: u8) -> bool
    ensures { result ≡ is_word_byte byte }
{
    byte.is_ascii_alphanumeric() || byte == b'_'
}

// Whether the first byte is a letter.
fn begins_with_letter(bytes: &[u8]) -> bool
    ensures { result ≡ begins is_ascii_alphabetic bytes.now }
{
    match bytes {
        [first, ..] => first.is_ascii_alphabetic(),
        [] => false,
    }
}

// How many bytes the word in front takes, 0 where there is none; so with the other forms.
fn word_len(bytes: &[u8]) -> usize
    ensures value { result ≡ word_len bytes.now }
    ensures within { result ≤ length bytes.now }
{
    if !begins_with_letter(bytes) {
        return 0;
    }
    word_bytes_len(bytes)
}

fn word_bytes_len(bytes: &[u8]) -> usize
    ensures value { result ≡ front_len is_word_byte bytes.now }
    ensures within { result ≤ length bytes.now }
{
    bytes.iter().take_while(|b| is_word_byte(**b)).count()
}

fn group_len(bytes: &[u8]) -> usize
    ensures value { result ≡ group_len bytes.now }
    ensures within { result ≤ length bytes.now }
{
    match bytes {
        [b'&', rest @ ..] => after_mark(word_len(rest)),
        _ => 0,
    }
}

// The length with a mark in front, where the rest is there.
fn after_mark(len: usize) -> usize
    requires { len < 2 ^ 63 }
    ensures { result ≡ after_mark len }
{
    match len {
        0 => 0,
        _ => 1 + len,
    }
}

pub fn digits_len(bytes: &[u8]) -> usize
    ensures value { result ≡ digits_len bytes.now }
    ensures within { result ≤ length bytes.now }
{
    bytes.iter().take_while(|b| b.is_ascii_digit()).count()
}

fn integer_len(bytes: &[u8]) -> usize
    ensures value { result ≡ integer_len bytes.now }
    ensures within { result ≤ length bytes.now }
{
    match bytes {
        [b'+' | b'-', rest @ ..] => after_mark(digits_len(rest)),
        _ => digits_len(bytes),
    }
}

fn repeat_len(bytes: &[u8]) -> usize
    ensures value { result ≡ repeat_len bytes.now }
    ensures within { result ≤ length bytes.now }
{
    let digits = digits_len(bytes);
    if digits == 0 {
        return 0;
    }
    match times_len(&bytes[digits..]) {
        0 => 0,
        len => digits + len,
    }
}

// The length of `*` and an integer.
fn times_len(bytes: &[u8]) -> usize
    ensures value { result ≡ times_len bytes.now }
    ensures within { result ≤ length bytes.now }
{
    match bytes {
        [b'*', rest @ ..] => after_mark(integer_len(rest)),
        _ => 0,
    }
}

fn text_len(bytes: &[u8]) -> usize
    ensures value { result ≡ text_len bytes.now }
    ensures within { result ≤ length bytes.now }
{
    match bytes {
        [mark @ (b'\'' | b'"'), rest @ ..] => quoted_len(*mark, rest),
        _ => 0,
    }
}

// The length of a text, mark in front and all, from what follows that mark.
fn quoted_len(mark: u8, rest: &[u8]) -> usize
    ensures value { result ≡ quoted_len mark rest.now }
    ensures within { result ≤ length rest.now + 1 }
{
    let len = unmarked_len(mark, rest);
    if rest.get(len).copied() == Some(mark) {
        len + 2
    } else {
        0
    }
}

// How many bytes go before the mark or the end of the line.
fn unmarked_len(mark: u8, bytes: &[u8]) -> usize
    ensures value { result ≡ front_len (is_plain mark) bytes.now }
    ensures within { result ≤ length bytes.now }
{
    bytes
        .iter()
        .take_while(|b| **b != mark && **b != b'\n')
        .count()
}

fn logical_len(bytes: &[u8]) -> usize
    ensures value { result ≡ logical_len bytes.now }
    ensures within { result ≤ length bytes.now }
{
    if begins_with_word(bytes, b".true.") {
        6
    } else if begins_with_word(bytes, b".false.") {
        7
    } else {
        0
    }
}

fn begins_with_word(bytes: &[u8], word: &[u8]) -> bool
    ensures { result ≡ same_word (take (length word.now) bytes.now) word.now }
{
    match bytes.get(..word.len()) {
        Some(front) => same_word(front, word),
        None => same_word(bytes, word),
    }
}

// What the byte is that begins none of the longer tokens.
fn mark_of(byte: u8) -> Kind
    ensures { result ≡ mark_of byte }
{
    match byte {
        b'=' => Kind::Equals,
        b',' => Kind::Comma,
        b'/' => Kind::Slash,
        _ => Kind::Stray,
    }
}

// The token in front: no two forms begin alike, but for a repeat, which begins with an integer.
fn form_of(bytes: &[u8]) -> Form
    requires { 0 < length bytes.now }
    ensures value { result ≡ form_of bytes.now }
    ensures some { 0 < result.len }
    ensures within { result.len ≤ length bytes.now }
{
    let mark = Form {
        kind: mark_of(bytes[0]),
        len: 1,
    };
    mark.unless(Kind::Logical, logical_len(bytes))
        .unless(Kind::Text, text_len(bytes))
        .unless(Kind::Integer, integer_len(bytes))
        .unless(Kind::Repeat, repeat_len(bytes))
        .unless(Kind::Word, word_len(bytes))
        .unless(Kind::Group, group_len(bytes))
}

impl Form {
    // This form, unless the text begins with one of another kind and so many bytes.
    fn unless(self, kind: Kind, len: usize) -> Form
        ensures value { result ≡ form_or kind len self }
        ensures some { 0 < self.len → 0 < result.len }
        ensures within { result.len ≤ max len self.len }
    {
        match len {
            0 => self,
            _ => Form { kind, len },
        }
    }
}

// How many bytes go before the end of the line.
fn comment_len(bytes: &[u8]) -> usize
    ensures value { result ≡ comment_len bytes.now }
    ensures within { result ≤ length bytes.now }
{
    bytes.iter().take_while(|b| **b != b'\n').count()
}

// What is left after a separator or a comment in front, or nothing where none is there.
fn past_gap(line: u32, bytes: &[u8]) -> Option<Cursor<'_>>
    requires { line + length bytes.now < 2 ^ 32 }
    ensures value { option_map place result ≡ past_gap line bytes.now }
    ensures lines { IfSome result (λ after. after.line + length after.rest.now ≤ line + length bytes.now) }
    ensures shorter { IfSome result (λ after. length after.rest.now < length bytes.now) }
{
    match bytes {
        [b'\n', rest @ ..] => Some(Cursor {
            line: line + 1,
            rest,
        }),
        [b' ' | b'\t' | b'\r', rest @ ..] => Some(Cursor { line, rest }),
        [b'!', comment @ ..] => {
            let rest = &comment[comment_len(comment)..];
            Some(Cursor { line, rest })
        }
        _ => None,
    }
}

// What is left after separators and comments.
fn skip(line: u32, bytes: &[u8]) -> Cursor<'_>
    requires { line + length bytes.now < 2 ^ 32 }
    ensures same { tokens_from 0 result.line result.rest.now ≡ tokens_from 0 line bytes.now }
    ensures ends { begins is_gap result.rest.now ≡ false }
    ensures lines { result.line + length result.rest.now ≤ line + length bytes.now }
    ensures shorter { length result.rest.now ≤ length bytes.now }
{
    let mut cursor = Cursor { line, rest: bytes };
    while let Some(after) = past_gap(cursor.line, cursor.rest) {
        cursor = after;
    }
    cursor
}

/// The first token and what is left after it, or nothing where no token is left.
pub fn next_token(line: u32, bytes: &[u8]) -> Option<(Token<'_>, Cursor<'_>)>
    requires { line + length bytes.now < 2 ^ 32 }
    ensures next { NextIs (tokens_from 0 line bytes.now) result }
    ensures lines { IfSome result (λ found. found.1.line + length found.1.rest.now < 2 ^ 32) }
    ensures shorter { IfSome result (λ found. length found.1.rest.now < length bytes.now) }
{
    let Cursor { line, rest } = skip(line, bytes);
    if rest.is_empty() {
        return None;
    }
    let form = form_of(rest);
    let (text, after) = rest.split_at(form.len);
    let token = Token {
        kind: form.kind,
        line,
        text,
    };
    Some((token, Cursor { line, rest: after }))
}
