// Replies whose text is fixed. They take no memory.
ghost use Rattle.std.specs.Prelude.{◌≡◌, false, true};
ghost use Rattle.hx_http.specs.Replies.{fault_row, fault_text, no_memory_text, store_failed_text};

use crate::HeadFault;

impl HeadFault {
    /// The HTTP status.
    pub fn code(self) -> u16
        ensures { result ≡ (fault_row self).code }
    {
        match self {
            HeadFault::BadHead => 400,
            HeadFault::NoMethod => 405,
            HeadFault::NoLength => 411,
            HeadFault::TooLong => 413,
            HeadFault::LongTarget => 414,
            HeadFault::LargeHead => 431,
            HeadFault::NotServed => 501,
            HeadFault::OldVersion => 505,
        }
    }

    /// The reply to a head that is refused. The link ends after it.
    pub fn reply(self) -> &'static str
        ensures { result.now ≡ fault_text self }
    {
        match self {
            HeadFault::BadHead => bad_head(),
            HeadFault::NoMethod => no_method(),
            HeadFault::NoLength => no_length(),
            HeadFault::TooLong => too_long(),
            HeadFault::LongTarget => long_target(),
            HeadFault::LargeHead => large_head(),
            HeadFault::NotServed => not_served(),
            HeadFault::OldVersion => old_version(),
        }
    }
}

/// The reply where no memory is left. `last` says that the link ends after it.
pub fn no_memory_reply(last: bool) -> &'static str
    ensures { result.now ≡ no_memory_text last }
{
    if last {
        no_memory_and_close()
    } else {
        no_memory()
    }
}

/// The reply where the store failed. `last` says that the link ends after it.
pub fn store_failed_reply(last: bool) -> &'static str
    ensures { result.now ≡ store_failed_text last }
{
    if last {
        store_failed_and_close()
    } else {
        store_failed()
    }
}

fn bad_head() -> &'static str
    ensures { result.now ≡ fault_text HeadFault.BadHead }
{
    "HTTP/1.1 400 Bad Request\r\ncontent-type: application/json\r\ncontent-length: 122\r\nconnection: close\r\n\r\n{\"apiVersion\":\"v1\",\"code\":400,\"kind\":\"Status\",\"message\":\"bad head\",\"metadata\":{},\"reason\":\"BadRequest\",\"status\":\"Failure\"}"
}

fn no_method() -> &'static str
    ensures { result.now ≡ fault_text HeadFault.NoMethod }
{
    "HTTP/1.1 405 Method Not Allowed\r\ncontent-type: application/json\r\ncontent-length: 142\r\nconnection: close\r\n\r\n{\"apiVersion\":\"v1\",\"code\":405,\"kind\":\"Status\",\"message\":\"method not served here\",\"metadata\":{},\"reason\":\"MethodNotAllowed\",\"status\":\"Failure\"}"
}

fn no_length() -> &'static str
    ensures { result.now ≡ fault_text HeadFault.NoLength }
{
    "HTTP/1.1 411 Length Required\r\ncontent-type: application/json\r\ncontent-length: 138\r\nconnection: close\r\n\r\n{\"apiVersion\":\"v1\",\"code\":411,\"kind\":\"Status\",\"message\":\"a length is required\",\"metadata\":{},\"reason\":\"LengthRequired\",\"status\":\"Failure\"}"
}

fn too_long() -> &'static str
    ensures { result.now ≡ fault_text HeadFault.TooLong }
{
    "HTTP/1.1 413 Payload Too Large\r\ncontent-type: application/json\r\ncontent-length: 147\r\nconnection: close\r\n\r\n{\"apiVersion\":\"v1\",\"code\":413,\"kind\":\"Status\",\"message\":\"more than 131072 bytes\",\"metadata\":{},\"reason\":\"RequestEntityTooLarge\",\"status\":\"Failure\"}"
}

fn long_target() -> &'static str
    ensures { result.now ≡ fault_text HeadFault.LongTarget }
{
    "HTTP/1.1 414 URI Too Long\r\ncontent-type: application/json\r\ncontent-length: 136\r\nconnection: close\r\n\r\n{\"apiVersion\":\"v1\",\"code\":414,\"kind\":\"Status\",\"message\":\"the target is too long\",\"metadata\":{},\"reason\":\"URITooLong\",\"status\":\"Failure\"}"
}

fn large_head() -> &'static str
    ensures { result.now ≡ fault_text HeadFault.LargeHead }
{
    "HTTP/1.1 431 Request Header Fields Too Large\r\ncontent-type: application/json\r\ncontent-length: 145\r\nconnection: close\r\n\r\n{\"apiVersion\":\"v1\",\"code\":431,\"kind\":\"Status\",\"message\":\"the head is too large\",\"metadata\":{},\"reason\":\"HeaderFieldsTooLarge\",\"status\":\"Failure\"}"
}

fn not_served() -> &'static str
    ensures { result.now ≡ fault_text HeadFault.NotServed }
{
    "HTTP/1.1 501 Not Implemented\r\ncontent-type: application/json\r\ncontent-length: 128\r\nconnection: close\r\n\r\n{\"apiVersion\":\"v1\",\"code\":501,\"kind\":\"Status\",\"message\":\"not served\",\"metadata\":{},\"reason\":\"NotImplemented\",\"status\":\"Failure\"}"
}

fn old_version() -> &'static str
    ensures { result.now ≡ fault_text HeadFault.OldVersion }
{
    "HTTP/1.1 505 HTTP Version Not Supported\r\ncontent-type: application/json\r\ncontent-length: 145\r\nconnection: close\r\n\r\n{\"apiVersion\":\"v1\",\"code\":505,\"kind\":\"Status\",\"message\":\"the version is not 1.1\",\"metadata\":{},\"reason\":\"VersionNotSupported\",\"status\":\"Failure\"}"
}

fn no_memory() -> &'static str
    ensures { result.now ≡ no_memory_text false }
{
    "HTTP/1.1 503 Service Unavailable\r\ncontent-type: application/json\r\ncontent-length: 135\r\n\r\n{\"apiVersion\":\"v1\",\"code\":503,\"kind\":\"Status\",\"message\":\"out of memory\",\"metadata\":{},\"reason\":\"ServiceUnavailable\",\"status\":\"Failure\"}"
}

fn no_memory_and_close() -> &'static str
    ensures { result.now ≡ no_memory_text true }
{
    "HTTP/1.1 503 Service Unavailable\r\ncontent-type: application/json\r\ncontent-length: 135\r\nconnection: close\r\n\r\n{\"apiVersion\":\"v1\",\"code\":503,\"kind\":\"Status\",\"message\":\"out of memory\",\"metadata\":{},\"reason\":\"ServiceUnavailable\",\"status\":\"Failure\"}"
}

fn store_failed() -> &'static str
    ensures { result.now ≡ store_failed_text false }
{
    "HTTP/1.1 500 Internal Server Error\r\ncontent-type: application/json\r\ncontent-length: 133\r\n\r\n{\"apiVersion\":\"v1\",\"code\":500,\"kind\":\"Status\",\"message\":\"the store failed\",\"metadata\":{},\"reason\":\"InternalError\",\"status\":\"Failure\"}"
}

fn store_failed_and_close() -> &'static str
    ensures { result.now ≡ store_failed_text true }
{
    "HTTP/1.1 500 Internal Server Error\r\ncontent-type: application/json\r\ncontent-length: 133\r\nconnection: close\r\n\r\n{\"apiVersion\":\"v1\",\"code\":500,\"kind\":\"Status\",\"message\":\"the store failed\",\"metadata\":{},\"reason\":\"InternalError\",\"status\":\"Failure\"}"
}
