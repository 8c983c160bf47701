// How far the first message of a stream was read.
ghost use Rattle.std.specs.Prelude.{◌≡◌, ◌≤◌, List, ℕ, None, Some, IfSome, IfNone, length};
ghost use Rattle.std.specs.Str.Lines.{strip_carriage_return};
ghost use Rattle.hx_http.specs.Fronts.{front_of};
ghost use Rattle.hx_http.specs.Searches.{AreSearched, IsSearched};
ghost use Rattle.hx_http.specs.Inside.{HasNoFeed, FeedsAt};

use crate::Framing;
use memchr::memchr;

/// How far the first message of a stream was read. Reading goes on from there when more bytes have come, so a head that comes byte by byte is looked through once and parsed once.
#[derive(Clone, Copy)]
pub enum Search {
    /// The head isn't whole.
    Lines(LineSearch),
    /// The head is, and its body isn't.
    Body(Framing),
}

impl Search {
    /// A search that begins, of whatever bytes.
    pub fn new() -> Search
        ensures { (bytes : List ℕ) → IsSearched bytes result }
    {
        Search::Lines(LineSearch::new())
    }
}

/// How far the end of a head was looked for.
#[derive(Clone, Copy)]
pub struct LineSearch {
    /// The bytes before this place were looked at.
    pub at: usize,
    /// Where the line begins that hasn't ended.
    pub line: usize,
    /// How many lines that aren't empty have ended.
    pub lines: usize,
}

impl LineSearch {
    pub fn new() -> LineSearch
        ensures { (bytes : List ℕ) → AreSearched bytes result }
    {
        LineSearch {
            at: 0,
            line: 0,
            lines: 0,
        }
    }

    /// Where the head ends, if it does. Bytes that were looked at before aren't looked at again.
    pub fn go_on(&mut self, bytes: &[u8]) -> Option<usize>
        requires searched { AreSearched bytes.now self.old }
        ensures found { IfSome result (λ n. (texts : List (List ℕ)) × (length texts ≡ self.new.lines) × (front_of bytes.now ≡ Some (record { length = n; lines = texts }))) }
        ensures within { IfSome result (λ n. n ≤ length bytes.now) }
        ensures none { IfNone result (front_of bytes.now ≡ None) }
        ensures looked { IfNone result (self.new.at ≡ length bytes.now) }
        ensures searched { IfNone result (AreSearched bytes.now self.new) }
    {
        while let Some(end) = first_feed(&bytes[self.at..]) {
            let end = self.at + end;
            let is_empty = without_return(&bytes[self.line..end]).is_empty();
            self.at = end + 1;
            self.line = end + 1;
            if !is_empty {
                self.lines += 1;
            } else if self.lines > 0 {
                return Some(self.at);
            }
        }
        self.at = bytes.len();
        None
    }
}

/// Where the first line feed is.
fn first_feed(bytes: &[u8]) -> Option<usize>
    ensures found { IfSome result (λ end. FeedsAt bytes.now end) }
    ensures none { IfNone result (HasNoFeed bytes.now) }
{
    memchr(b'\n', bytes)
}

/// A line without the carriage return at its end.
fn without_return(line: &[u8]) -> &[u8]
    ensures { result.now ≡ strip_carriage_return line.now }
{
    if let Some(b'\r') = line.last().copied() {
        &line[..line.len() - 1]
    } else {
        line
    }
}
