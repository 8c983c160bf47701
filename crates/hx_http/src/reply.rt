// The text of a reply.
ghost use Rattle.std.specs.Prelude.{◌≡◌, ◌++◌, [], OnOk, string_bytes, unwrap_or};
ghost use Rattle.http.specs.StatusCode.{IsStatusCode, reason_phrase};
ghost use Rattle.hx_http.specs.Replies.{closing, end_text, head_text, length_lines, reply_text, status_line, type_text, version_text};

use http::StatusCode;
use hx_object::NoMemory;

/// Writes a reply in place of what `out` holds: a status, and a body in JSON. Head and body lie in one text, so that one write takes both. `last` says that the link ends after it.
///
/// It takes no memory where `out` has room. After an error `out` holds a part of the reply.
pub fn write_reply(out: &mut String, status: u16, body: &str, last: bool) -> Result<(), NoMemory>
    requires { IsStatusCode status }
    ensures { OnOk result (string_bytes out.new ≡ reply_text status body.now last) }
{
    out.clear();
    push_head(out, status, body.len(), last)?;
    out.push_str(body)?;
    Ok(())
}

#[tactic(auto, unfolding(crate::specs::Replies::head_text))]
fn push_head(out: &mut String, status: u16, count: usize, last: bool) -> Result<(), NoMemory>
    requires { IsStatusCode status }
    ensures { OnOk result (string_bytes out.new ≡ string_bytes out.old ++ head_text status count last) }
{
    push_status_line(out, status)?;
    push_length_lines(out, count)?;
    out.push_str(closing(last))?;
    out.push_str(end_text())?;
    Ok(())
}

#[tactic(auto, unfolding(crate::specs::Replies::status_line))]
fn push_status_line(out: &mut String, status: u16) -> Result<(), NoMemory>
    requires { IsStatusCode status }
    ensures { OnOk result (string_bytes out.new ≡ string_bytes out.old ++ status_line status) }
{
    out.push_str(version_text())?;
    write!(out, "{status}")?;
    out.push_str(" ")?;
    out.push_str(phrase(status))?;
    Ok(())
}

#[tactic(auto, unfolding(crate::specs::Replies::length_lines))]
fn push_length_lines(out: &mut String, count: usize) -> Result<(), NoMemory>
    ensures { OnOk result (string_bytes out.new ≡ string_bytes out.old ++ length_lines count) }
{
    out.push_str(type_text())?;
    write!(out, "{count}")?;
    out.push_str(end_text())?;
    Ok(())
}

/// The canonical phrase of a status.
fn phrase(status: u16) -> &'static str
    requires { IsStatusCode status }
    ensures { result.now ≡ unwrap_or (reason_phrase status) [] }
{
    match StatusCode::from_u16(status) {
        Ok(status) => status.canonical_reason().unwrap_or(""),
        Err(_) => "",
    }
}

/// The header of a reply after which the link ends.
fn closing(last: bool) -> &'static str
    ensures { result.now ≡ closing last }
{
    if last { "connection: close\r\n" } else { "" }
}

#[tactic(auto, unfolding(crate::specs::Replies::version_text))]
fn version_text() -> &'static str
    ensures { result.now ≡ version_text }
{
    "HTTP/1.1 "
}

#[tactic(auto, unfolding(crate::specs::Replies::type_text))]
fn type_text() -> &'static str
    ensures { result.now ≡ type_text }
{
    "\r\ncontent-type: application/json\r\ncontent-length: "
}

#[tactic(auto, unfolding(crate::specs::Replies::end_text))]
fn end_text() -> &'static str
    ensures { result.now ≡ end_text }
{
    "\r\n"
}
