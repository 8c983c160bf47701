// What is read of a message.
use crate::{HeadFault, Method};
use httparse::spans::Span;

/// What the `Content-Length` headers of a head say.
#[derive(Clone, Copy)]
pub enum Length {
    Absent,
    Given(u64),
    /// One can't be read, or there are two.
    Bad,
}

/// What a head decides of its message: all but the body.
#[derive(Clone, Copy)]
pub struct Framing {
    /// Where the body begins.
    pub head_bytes: usize,
    pub method: Method,
    /// Where the target lies.
    pub target: Span,
    pub body_bytes: usize,
    pub last: bool,
}

/// A message, whose parts lie in the bytes that it was read from.
#[derive(Clone, Copy)]
pub struct Message<'a> {
    pub method: Method,
    pub target: &'a str,
    pub body: &'a [u8],
    /// It says that the link ends after it.
    pub last: bool,
}

/// The first message of bytes that aren't used yet.
#[derive(Clone, Copy)]
pub enum Next<'a> {
    /// It takes so many bytes, with the empty lines before it.
    Whole { message: Message<'a>, length: usize },
    /// More bytes are needed.
    More,
    Refused(HeadFault),
}
