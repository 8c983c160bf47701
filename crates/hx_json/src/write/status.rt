// Refusals and removals as compact JSON: each is a Kubernetes `Status`.
ghost use Rattle.std.specs.Prelude.{◌≡◌, ◌++◌, string_bytes, OnOk};
ghost use Rattle.hx_model.specs.Replies.{deleted_text, status_text};

use super::details::push_details;
use super::text::{push, push_named, push_named_number, push_named_text, push_number};
use hx_model::Refusal;
use hx_object::NoMemory;

/// Appends the text of a refusal: a Kubernetes `Status`.
pub fn push_status(out: &mut String, refusal: &Refusal) -> Result<(), NoMemory>
    ensures { OnOk result (string_bytes out.new ≡ string_bytes out.old ++ status_text refusal.now) }
{
    let message = refusal.message(*out.allocator())?;
    push(out, r#"{"apiVersion":"v1","code":"#)?;
    push_number(out, refusal.code() as u64)?;
    push_details(out, refusal)?;
    push_named_text(out, r#","kind":"Status","message":"#, &message)?;
    push_named(out, r#","metadata":{},"reason":"#, refusal.reason().name())?;
    push(out, r#","status":"Failure"}"#)
}

/// Appends the text of a removal, with the version of its write: a Kubernetes `Status` of success.
pub fn push_deleted(out: &mut String, version: u64) -> Result<(), NoMemory>
    ensures { OnOk result (string_bytes out.new ≡ string_bytes out.old ++ deleted_text version) }
{
    push_named_number(
        out,
        r#"{"apiVersion":"v1","kind":"Status","metadata":{"resourceVersion":"#,
        version,
    )?;
    push(out, r#"},"status":"Success"}"#)
}
