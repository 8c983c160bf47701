// Why a head is refused.

/// Why bytes begin with no message that is served. Where several hold, the first one by the order of [`crate::next_request`] counts.
#[derive(Clone, Copy)]
pub enum HeadFault {
    /// 400: it isn't the head of a request, or what it says of the length of the body can't be read.
    BadHead,
    /// 405: the method isn't GET, POST, PUT or DELETE.
    NoMethod,
    /// 411: a POST or a PUT without `Content-Length`.
    NoLength,
    /// 413: the body has more than 131,072 bytes.
    TooLong,
    /// 414: the target has more than 8,192 bytes.
    LongTarget,
    /// 431: the head doesn't end within the first 65,536 bytes, or has more than 64 headers.
    LargeHead,
    /// 501: the body comes in an encoding of its transfer.
    NotServed,
    /// 505: the version is 1.0.
    OldVersion,
}
