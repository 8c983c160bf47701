// A text that is read by one token after another.
ghost use Rattle.std.specs.Prelude.{◌≡◌, ◌+◌, ◌<◌, ◌≤◌, ◌==◌, IsFalse, IsSome, None, length, position, slice_index};
ghost use Rattle.std.specs.List.{position_or_len};
ghost use Rattle.std.specs.Str.{IsCharBoundary};
ghost use Rattle.hx_select.specs.Tokens.{ends_word, kind_at, space, token_len, tokens_from};

use crate::token::{Token, TokenKind};

/// What is left of a text.
#[derive(Clone, Copy)]
pub(crate) struct Tokens<'a> {
    rest: &'a str,
    /// The place of the rest.
    at: usize,
    /// The place where the text ends.
    end: usize,
    ghost whole: { at + length rest.now ≡ end },
}

impl<'a> Tokens<'a> {
    ghost use Rattle.hx_select.specs.Inside.{left, meets, reads};
    ghost use Rattle.hx_select.specs.Selectors.{Place};

    pub fn of(text: &'a str) -> Tokens<'a>
        ensures rest { result.rest.now ≡ text.now }
        ensures at { result.at ≡ 0 }
        ensures end { result.end ≡ length text.now }
    {
        Tokens {
            rest: text,
            at: 0,
            end: text.len(),
        }
    }

    /// The next token, and what is left behind it.
    pub fn first(self) -> (Token<'a>, Tokens<'a>)
        ensures token { (place : Place) → reads place self.entry ≡ meets place result.0 result.1 }
        ensures left { left result.1 ≤ left self.entry }
        ensures fewer { IsSome result.0.kind → left result.1 < left self.entry }
    {
        let tokens = self.behind_spaces();
        if tokens.rest.is_empty() {
            return (tokens.last(), tokens);
        }
        tokens.cut()
    }

    /// The token that the rest begins with, and what is left behind it.
    fn cut(self) -> (Token<'a>, Tokens<'a>)
        requires some { 0 < left self }
        requires first { IsFalse (slice_index self.rest.now 0 == space) }
        ensures token { (place : Place) → reads place self.entry ≡ meets place result.0 result.1 }
        ensures fewer { left result.1 < left self.entry }
    {
        let kind = kind_of(self.rest);
        let (word, rest) = self.rest.split_at(token_len(kind, self.rest));
        let token = Token {
            kind: Some(kind),
            at: self.at,
            word,
        };
        let behind = Tokens {
            rest,
            at: self.at + word.len(),
            end: self.end,
        };
        (token, behind)
    }

    /// The end of the text, where it has come.
    fn last(self) -> Token<'a>
        ensures kind { result.kind ≡ None }
        ensures at { result.at ≡ self.entry.end }
    {
        Token {
            kind: None,
            at: self.end,
            word: self.rest,
        }
    }

    fn behind_spaces(self) -> Tokens<'a>
        ensures same { tokens_from self.entry.at 0 self.entry.rest.now ≡ tokens_from result.at 0 result.rest.now }
        ensures end { result.end ≡ self.entry.end }
        ensures left { left result ≤ left self.entry }
        ensures first { IsFalse (slice_index result.rest.now 0 == space) }
    {
        let mut rest = self.rest;
        let mut at = self.at;
        while let Some(next) = rest.strip_prefix(' ') {
            rest = next;
            at += 1;
        }
        Tokens {
            rest,
            at,
            end: self.end,
        }
    }
}

/// What the token is that a text begins with.
fn kind_of(text: &str) -> TokenKind
    ensures { result ≡ kind_at (slice_index text.now 0) (slice_index text.now 1) }
{
    match text.as_bytes() {
        [byte, next, ..] => kind_at(*byte, *next),
        [byte] => kind_at(*byte, 0),
        [] => kind_at(0, 0),
    }
}

/// What the token is that begins with a byte, by the byte behind that.
fn kind_at(byte: u8, next: u8) -> TokenKind
    ensures { result ≡ kind_at byte next }
{
    match byte {
        b',' => TokenKind::Comma,
        b'(' => TokenKind::Open,
        b')' => TokenKind::Close,
        b'!' if next == b'=' => TokenKind::NotEqual,
        b'!' => TokenKind::Bang,
        b'=' if next == b'=' => TokenKind::EqualEqual,
        b'=' => TokenKind::Equal,
        b'<' | b'>' => TokenKind::Angle,
        _ => TokenKind::Word,
    }
}

/// How many bytes the token has that a text begins with.
fn token_len(kind: TokenKind, text: &str) -> usize
    requires some { 0 < length text.now }
    requires kind { kind ≡ kind_at (slice_index text.now 0) (slice_index text.now 1) }
    ensures len { result ≡ token_len kind text.now }
    ensures boundary { IsCharBoundary text.now result }
{
    match kind {
        TokenKind::Word => 1 + word_len(&text.as_bytes()[1..]),
        TokenKind::EqualEqual | TokenKind::NotEqual => 2,
        _ => 1,
    }
}

/// How many bytes stand before the first that isn't of a word.
fn word_len(bytes: &[u8]) -> usize
    ensures len { result ≡ position_or_len ends_word bytes.now }
    ensures within { result ≤ length bytes.now }
{
    match first_end(bytes) {
        Some(len) => len,
        None => bytes.len(),
    }
}

fn first_end(bytes: &[u8]) -> Option<usize>
    ensures { result ≡ position ends_word bytes.now }
{
    bytes.iter().position(|byte| ends_word(*byte))
}

fn ends_word(byte: u8) -> bool
    ensures { result ≡ ends_word byte }
{
    matches!(byte, b' ' | b',' | b'(' | b')' | b'!' | b'=' | b'<' | b'>')
}
