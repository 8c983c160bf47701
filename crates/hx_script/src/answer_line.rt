// The lines of answers.
ghost use Rattle.std.specs.Prelude.{◌≡◌, ◌≢◌, ◌++◌, OnOk, IfSome, IfNone, string_bytes};
ghost use Rattle.hx_model.specs.Serving.{IsLegalAnswer};
ghost use Rattle.hx_script.specs.Replies.{answer_line};

use hx_api::{push_body, status_of};
use hx_model::{Answer, Refusal};
use hx_object::NoMemory;

/// Appends the line of an answer: the status, a space, the body and a line feed. After an error it holds a part of it.
#[tactic(auto, unfolding(crate::specs::Replies::line_of))]
pub fn push_line(out: &mut String, answer: &Answer) -> Result<(), NoMemory>
    requires { IsLegalAnswer answer.now }
    ensures { OnOk result (string_bytes out.new ≡ string_bytes out.old ++ answer_line answer.now) }
{
    let status = status_of(answer);
    write!(out, "{status} ")?;
    push_body(out, answer)?;
    out.push('\n')?;
    Ok(())
}

/// The lines that need no memory, among them those of all refusals that a line fixes without a target.
pub fn fixed_line(refusal: &Refusal) -> Option<&'static str>
    ensures line { IfSome result (λ line. line.now ≡ answer_line (Answer.Refused refusal.now)) }
    ensures store_failed { IfNone result (refusal.now ≢ Refusal.StoreFailed) }
{
    match refusal {
        Refusal::BadLine => Some(bad_line()),
        Refusal::TooLong => Some(too_long()),
        Refusal::StoreFailed => Some(store_failed()),
        Refusal::NotServed => Some(not_served()),
        Refusal::NoMemory => Some(no_memory()),
        _ => None,
    }
}

fn bad_line() -> &'static str
    ensures { result.now ≡ answer_line (Answer.Refused Refusal.BadLine) }
{
    "400 {\"apiVersion\":\"v1\",\"code\":400,\"kind\":\"Status\",\"message\":\"line in no form of the script\",\"metadata\":{},\"reason\":\"BadRequest\",\"status\":\"Failure\"}\n"
}

fn too_long() -> &'static str
    ensures { result.now ≡ answer_line (Answer.Refused Refusal.TooLong) }
{
    "413 {\"apiVersion\":\"v1\",\"code\":413,\"kind\":\"Status\",\"message\":\"more than 131072 bytes\",\"metadata\":{},\"reason\":\"RequestEntityTooLarge\",\"status\":\"Failure\"}\n"
}

fn store_failed() -> &'static str
    ensures { result.now ≡ answer_line (Answer.Refused Refusal.StoreFailed) }
{
    "500 {\"apiVersion\":\"v1\",\"code\":500,\"kind\":\"Status\",\"message\":\"the store failed\",\"metadata\":{},\"reason\":\"InternalError\",\"status\":\"Failure\"}\n"
}

fn not_served() -> &'static str
    ensures { result.now ≡ answer_line (Answer.Refused Refusal.NotServed) }
{
    "501 {\"apiVersion\":\"v1\",\"code\":501,\"kind\":\"Status\",\"message\":\"not served\",\"metadata\":{},\"reason\":\"NotImplemented\",\"status\":\"Failure\"}\n"
}

/// The line for want of memory.
pub fn no_memory() -> &'static str
    ensures { result.now ≡ answer_line (Answer.Refused Refusal.NoMemory) }
{
    "503 {\"apiVersion\":\"v1\",\"code\":503,\"kind\":\"Status\",\"message\":\"out of memory\",\"metadata\":{},\"reason\":\"ServiceUnavailable\",\"status\":\"Failure\"}\n"
}
