// The first message of bytes that aren't used yet.
ghost use Rattle.std.specs.Prelude.{◌≡◌, ◌≤◌, List, ℕ, ◌++◌, IsUtf8, length, take};
ghost use Rattle.hx_http.specs.Messages.{next_of, most_front_bytes};
ghost use Rattle.hx_http.specs.Searches.{AreSearched, HasLooked, IsRead, IsSearched, next_seen, IfWhole, OnMore, UnlessMore};

use crate::HeadFault;
use crate::head::framing_of;
use crate::message::{Framing, Message, Next};
use crate::search::{LineSearch, Search};

/// The most bytes up to the end of a head, with what is passed over before it.
const MOST_FRONT_BYTES: usize = 65_536;

/// The first message of bytes, or the first fault that holds of its head, or that more bytes are needed. It takes no memory: the message's parts lie in the bytes.
///
/// Faults are tried in this order: `LargeHead`, `BadHead`, `OldVersion`, `LongTarget`, `NoMethod`, `NotServed`, `NoLength`, `TooLong`. All but a head that doesn't end wait until it is whole, and none waits for the body.
///
/// After [`Next::More`] the search goes on with the same bytes and those that came behind them: it looks at these alone, and doesn't parse a head again. After a message, and after a fault, it begins anew, with whatever bytes.
pub fn next_request<'a>(search: &mut Search, bytes: &'a [u8]) -> Next<'a>
    requires searched { IsSearched bytes.now search.old }
    ensures next { next_seen result ≡ next_of bytes.now }
    ensures uses { IfWhole result (λ n. (1 ≤ n) × (n ≤ length bytes.now)) }
    ensures looked { OnMore result (HasLooked bytes.now search.new) }
    ensures goes_on { OnMore result ((more : List ℕ) → IsSearched (bytes.now ++ more) search.new) }
    ensures begins_anew { UnlessMore result ((others : List ℕ) → IsSearched others search.new) }
{
    match *search {
        Search::Lines(lines) => next_by_lines(search, lines, bytes),
        Search::Body(framing) => next_by_body(search, framing, bytes),
    }
}

/// Where the head isn't whole.
fn next_by_lines<'a>(search: &mut Search, lines: LineSearch, bytes: &'a [u8]) -> Next<'a>
    requires searched { AreSearched (take most_front_bytes bytes.now) lines }
    ensures next { next_seen result ≡ next_of bytes.now }
    ensures uses { IfWhole result (λ n. (1 ≤ n) × (n ≤ length bytes.now)) }
    ensures looked { OnMore result (HasLooked bytes.now search.new) }
    ensures goes_on { OnMore result ((more : List ℕ) → IsSearched (bytes.now ++ more) search.new) }
    ensures begins_anew { UnlessMore result ((others : List ℕ) → IsSearched others search.new) }
{
    let room = bytes.len().min(MOST_FRONT_BYTES);
    let mut lines = lines;
    match lines.go_on(&bytes[..room]) {
        Some(at) => match framing_of(&bytes[..at], lines.lines) {
            Ok(framing) => next_by_body(search, framing, bytes),
            Err(fault) => {
                *search = Search::new();
                Next::Refused(fault)
            }
        },
        None => {
            if bytes.len() < MOST_FRONT_BYTES {
                *search = Search::Lines(lines);
                return Next::More;
            }
            *search = Search::new();
            Next::Refused(HeadFault::LargeHead)
        }
    }
}

/// Where the head was read.
fn next_by_body<'a>(search: &mut Search, framing: Framing, bytes: &'a [u8]) -> Next<'a>
    requires read { IsRead bytes.now framing }
    ensures next { next_seen result ≡ next_of bytes.now }
    ensures uses { IfWhole result (λ n. (1 ≤ n) × (n ≤ length bytes.now)) }
    ensures looked { OnMore result (HasLooked bytes.now search.new) }
    ensures goes_on { OnMore result ((more : List ℕ) → IsSearched (bytes.now ++ more) search.new) }
    ensures begins_anew { UnlessMore result ((others : List ℕ) → IsSearched others search.new) }
{
    let rest = &bytes[framing.head_bytes..];
    if framing.body_bytes > rest.len() {
        *search = Search::Body(framing);
        return Next::More;
    }
    *search = Search::new();
    Next::Whole {
        message: Message {
            method: framing.method,
            target: text_of(framing.target.of(bytes)),
            body: &rest[..framing.body_bytes],
            last: framing.last,
        },
        length: framing.head_bytes + framing.body_bytes,
    }
}

/// The text of a target.
fn text_of(bytes: &[u8]) -> &str
    requires { IsUtf8 bytes.now }
    ensures { result.now ≡ bytes.now }
{
    match str::from_utf8(bytes) {
        Ok(text) => text,
        Err(_) => unreachable!(),
    }
}
