// What a head decides of its message.
ghost use Rattle.std.specs.Prelude.{◌≡◌, ◌≢◌, ◌≤◌, List, ℕ, true, None, Some, IfSome, IfNone, IfOk, length, map, All, IsUtf8};
ghost use Rattle.std.specs.List.{list_all};
ghost use Rattle.std.specs.Char.{is_ascii_digit};
ghost use Rattle.std.specs.Str.Parse.{digits_value};
ghost use Rattle.httparse.specs.Spans.{IsRequestWithin, IsWithin, IsHeaderWithin, span_bytes, header_bytes};
ghost use Rattle.hx_http.specs.Fronts.{IsFront};
ghost use Rattle.hx_http.specs.Heads.{Head, head_of};
ghost use Rattle.hx_http.specs.Messages.{framing_of, framing_in, by_version, by_method, by_length, needs_length, method_of, is_same, has_name, noted, length_from, is_encoded, ends_link, is_last};
ghost use Rattle.hx_http.specs.declared.message.Length.TheVariants.{Absent, Bad};
ghost use Rattle.hx_http.specs.Inside.{IsPlaced, IsTarget, head_by, head_in, framing_seen, framed};

use crate::message::{Framing, Length};
use crate::{HeadFault, Method};
use httparse::Status;
use httparse::spans::{EMPTY_HEADER_SPAN, HeaderSpan, RequestSpans, parse_request};

/// Where the parts of a head lie, if the bytes are one.
fn read_head(front: &[u8], headers: &mut [HeaderSpan]) -> Option<RequestSpans>
    requires { length headers.old ≡ 64 }
    ensures head { IfSome result (λ r. (lines : List (List ℕ)) → IsFront front.now lines → head_of lines ≡ Some (head_by front.now headers.new r)) }
    ensures within { IfSome result (λ r. IsRequestWithin front.now headers.new r) }
    ensures text { IfSome result (λ r. IsUtf8 (span_bytes front.now r.path)) }
    ensures same { length headers.new ≡ 64 }
    ensures none { IfNone result ((lines : List (List ℕ)) → IsFront front.now lines → length lines ≤ 65 → head_of lines ≡ None) }
{
    match parse_request(front, headers) {
        Ok(Status::Complete(head)) => Some(head),
        Ok(Status::Partial) => None,
        Err(_) => None,
    }
}

/// Whether bytes are a word but for the case of letters.
fn is_same(word: &[u8], bytes: &[u8]) -> bool
    ensures { result ≡ is_same word.now bytes.now }
{
    bytes.eq_ignore_ascii_case(word)
}

/// Whether a header has the name.
fn has_name(front: &[u8], name: &[u8], header: &HeaderSpan) -> bool
    requires { IsHeaderWithin (length front.now) header.now }
    ensures { result ≡ has_name name.now (header_bytes front.now header.now) }
{
    is_same(name, header.name.of(front))
}

/// What a header's value says of the length: 1 to 18 digits.
fn read_length(text: &[u8]) -> Length
    ensures { result ≡ noted Absent text.now }
{
    if text.is_empty() || text.len() > 18 || !has_digits(text) {
        return Length::Bad;
    }
    Length::Given(value_of(text))
}

fn has_digits(text: &[u8]) -> bool
    ensures { result ≡ list_all is_ascii_digit text.now }
{
    text.iter().all(|byte| byte.is_ascii_digit())
}

/// The number that decimal digits stand for.
fn value_of(digits: &[u8]) -> u64
    requires few { length digits.now ≤ 18 }
    requires digits { list_all is_ascii_digit digits.now ≡ true }
    ensures { result ≡ digits_value 10 digits.now }
{
    let mut value = 0;
    for digit in digits {
        value = value * 10 + (*digit - b'0') as u64;
    }
    value
}

/// What the headers say of the length.
fn length_of(front: &[u8], headers: &[HeaderSpan]) -> Length
    requires { All (IsHeaderWithin (length front.now)) headers.now }
    ensures { result ≡ length_from Absent (map (header_bytes front.now) headers.now) }
{
    let mut given = Length::Absent;
    for header in headers {
        if has_name(front, b"content-length", header) {
            given = noted(given, header.value.of(front));
        }
    }
    given
}

/// A length was read, the first one or another.
fn noted(given: Length, text: &[u8]) -> Length
    ensures { result ≡ noted given text.now }
{
    match given {
        Length::Absent => read_length(text),
        Length::Given(_) => Length::Bad,
        Length::Bad => Length::Bad,
    }
}

/// Whether the body comes in an encoding of its transfer, as chunks.
fn is_encoded(front: &[u8], headers: &[HeaderSpan]) -> bool
    requires { All (IsHeaderWithin (length front.now)) headers.now }
    ensures { result ≡ is_encoded (map (header_bytes front.now) headers.now) }
{
    let mut encoded = false;
    for header in headers {
        if has_name(front, b"transfer-encoding", header) {
            encoded = true;
        }
    }
    encoded
}

/// Whether a header says that the link ends.
fn ends_link(front: &[u8], header: &HeaderSpan) -> bool
    requires { IsHeaderWithin (length front.now) header.now }
    ensures { result ≡ ends_link (header_bytes front.now header.now) }
{
    has_name(front, b"connection", header) && is_same(b"close", header.value.of(front))
}

/// Whether the link ends after the message.
fn is_last(front: &[u8], headers: &[HeaderSpan]) -> bool
    requires { All (IsHeaderWithin (length front.now)) headers.now }
    ensures { result ≡ is_last (map (header_bytes front.now) headers.now) }
{
    let mut last = false;
    for header in headers {
        if ends_link(front, header) {
            last = true;
        }
    }
    last
}

fn method_of(word: &[u8]) -> Option<Method>
    ensures { result ≡ method_of word.now }
{
    if word == b"GET".as_slice() {
        Some(Method::Get)
    } else if word == b"POST".as_slice() {
        Some(Method::Post)
    } else if word == b"PUT".as_slice() {
        Some(Method::Put)
    } else if word == b"DELETE".as_slice() {
        Some(Method::Delete)
    } else {
        None
    }
}

fn needs_length(method: Method) -> bool
    ensures { result ≡ needs_length method }
{
    matches!(method, Method::Post | Method::Put)
}

/// The most lines of a head: the first one, and its headers.
const MOST_LINES: usize = 65;

/// The most bytes of a target.
const MOST_TARGET_BYTES: usize = 8_192;

/// The most bytes of a body.
const MOST_BODY_BYTES: u64 = 131_072;

/// What the head decides that the bytes are, which has so many lines.
#[tactic(auto, unfolding(crate::specs::Messages::framing_of))]
pub fn framing_of(front: &[u8], lines: usize) -> Result<Framing, HeadFault>
    ensures decides { (texts : List (List ℕ)) → IsFront front.now texts → length texts ≡ lines → framing_of texts ≡ framing_seen front.now result }
    ensures target { IfOk result (λ f. IsTarget front.now f) }
{
    if lines > MOST_LINES {
        return Err(HeadFault::LargeHead);
    }
    let mut headers = [EMPTY_HEADER_SPAN; 64];
    let Some(head) = read_head(front, &mut headers) else {
        return Err(HeadFault::BadHead);
    };
    framing_in(front, head, &headers[..head.headers])
}

/// What a head decides, by where its parts lie.
fn framing_in(
    front: &[u8],
    head: RequestSpans,
    headers: &[HeaderSpan],
) -> Result<Framing, HeadFault>
    requires method { IsWithin (length front.now) head.method }
    requires path { IsWithin (length front.now) head.path }
    requires headers { All (IsHeaderWithin (length front.now)) headers.now }
    ensures decides { framing_seen front.now result ≡ framing_in (Some (head_in front.now headers.now head)) }
    ensures place { IfOk result (λ f. IsPlaced front.now head f) }
{
    let given = length_of(front, headers);
    if let Length::Bad = given {
        return Err(HeadFault::BadHead);
    }
    by_version(front, head, headers, given)
}

/// By the version and the target, and then by the method.
fn by_version(
    front: &[u8],
    head: RequestSpans,
    headers: &[HeaderSpan],
    given: Length,
) -> Result<Framing, HeadFault>
    requires method { IsWithin (length front.now) head.method }
    requires path { IsWithin (length front.now) head.path }
    requires headers { All (IsHeaderWithin (length front.now)) headers.now }
    requires given { given ≢ Bad }
    ensures decides { framing_seen front.now result ≡ by_version (head_in front.now headers.now head) given }
    ensures place { IfOk result (λ f. IsPlaced front.now head f) }
{
    if head.version == 0 {
        return Err(HeadFault::OldVersion);
    }
    if head.path.of(front).len() > MOST_TARGET_BYTES {
        return Err(HeadFault::LongTarget);
    }
    match method_of(head.method.of(front)) {
        Some(method) => by_method(front, head, headers, given, method),
        None => Err(HeadFault::NoMethod),
    }
}

/// By the encoding of the transfer, and then by the length.
fn by_method(
    front: &[u8],
    head: RequestSpans,
    headers: &[HeaderSpan],
    given: Length,
    method: Method,
) -> Result<Framing, HeadFault>
    requires headers { All (IsHeaderWithin (length front.now)) headers.now }
    requires given { given ≢ Bad }
    ensures decides { framing_seen front.now result ≡ by_method (head_in front.now headers.now head) given (Some method) }
    ensures place { IfOk result (λ f. IsPlaced front.now head f) }
{
    if is_encoded(front, headers) {
        return Err(HeadFault::NotServed);
    }
    match body_bytes(method, given) {
        Err(fault) => Err(fault),
        Ok(body_bytes) => Ok(Framing {
            head_bytes: front.len(),
            method,
            target: head.path,
            body_bytes,
            last: is_last(front, headers),
        }),
    }
}

/// How many bytes the body has.
fn body_bytes(method: Method, given: Length) -> Result<usize, HeadFault>
    requires { given ≢ Bad }
    ensures { (head : Head) → by_length method head given ≡ framed method head result }
{
    let body_bytes = match given {
        Length::Given(body_bytes) => body_bytes,
        _ => {
            if needs_length(method) {
                return Err(HeadFault::NoLength);
            }
            0
        }
    };
    if body_bytes > MOST_BODY_BYTES {
        return Err(HeadFault::TooLong);
    }
    Ok(body_bytes as usize)
}
