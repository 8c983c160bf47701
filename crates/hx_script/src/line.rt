// What a line orders.
ghost use Rattle.std.specs.Prelude.{◌≡◌, ◌⊎◌, IfOk, IfErr, Ok, Err, Result, option_copied};
ghost use Rattle.hx_model.specs.Serving.{IsServedAsk};
ghost use Rattle.hx_script.specs.Lines.{line_of_text};
ghost use Rattle.hx_script.specs.Workers.{worker_order};
ghost use Rattle.hx_script.specs.Forms.{method_of, takes_body, body_of, target_of, request_in, asking_for, turning, reading_of_bytes, reading_of_text, reading_of};
ghost use Rattle.hx_script.specs.Inside.{IsServedOrder, IsUnread};

use crate::order::Order;
use crate::words::cut;
use crate::worker::worker_order;
use hx_api::{Method, RequestReader};
use hx_model::{Ask, Refusal};
use std::alloc::Global;

/// The most bytes of a line.
const MOST_LINE_BYTES: usize = 131_072;

/// Why a line orders nothing.
#[derive(Drop)]
pub enum Unread {
    /// It is refused, for want of memory too.
    Refused(Refusal),
    /// A worker takes a key that it names, and no memory was left for the key.
    LostTake { worker: u32 },
}

/// What a line orders, or why it orders nothing.
pub fn read_line(reader: &mut RequestReader, alloc: Global, line: &[u8]) -> Result<Order, Unread>
    ensures orders { IfOk result (λ order. reading_of (line_of_text line.now) ≡ Ok order) }
    ensures served { IfOk result IsServedOrder }
    ensures unread { IfErr result (λ unread. IsUnread (reading_of (line_of_text line.now)) unread) }
{
    if line.len() > MOST_LINE_BYTES {
        return Err(Unread::Refused(Refusal::TooLong));
    }
    read_bytes(reader, alloc, line)
}

/// What the bytes of a line order. Bytes that aren't UTF-8 order nothing.
fn read_bytes(reader: &mut RequestReader, alloc: Global, line: &[u8]) -> Result<Order, Unread>
    ensures orders { IfOk result (λ order. reading_of_bytes line.now ≡ Ok order) }
    ensures served { IfOk result IsServedOrder }
    ensures unread { IfErr result (λ unread. IsUnread (reading_of_bytes line.now) unread) }
{
    match str::from_utf8(line) {
        Ok(text) => read_text(reader, alloc, text),
        Err(_) => Err(Unread::Refused(Refusal::BadLine)),
    }
}

#[tactic(auto, unfolding(crate::specs::Forms::reading_of_text))]
fn read_text(reader: &mut RequestReader, alloc: Global, text: &str) -> Result<Order, Unread>
    ensures orders { IfOk result (λ order. reading_of_text text.now ≡ Ok order) }
    ensures served { IfOk result IsServedOrder }
    ensures unread { IfErr result (λ unread. IsUnread (reading_of_text text.now) unread) }
{
    let (word, rest) = cut(text);
    match method_of(word) {
        None => read_turn(alloc, text),
        Some(method) => asked(read_request(reader, method, rest)),
    }
}

/// What a line orders that has no method.
fn read_turn(alloc: Global, text: &str) -> Result<Order, Unread>
    ensures orders { IfOk result (λ order. turning (worker_order text.now) ≡ Ok order) }
    ensures served { IfOk result IsServedOrder }
    ensures unread { IfErr result (λ unread. IsUnread (turning (worker_order text.now)) unread) }
{
    match worker_order(alloc, text) {
        Ok(Some(order)) => Ok(order),
        Ok(None) => Err(Unread::Refused(Refusal::BadLine)),
        Err(lost) => Err(Unread::LostTake {
            worker: lost.worker,
        }),
    }
}

/// A request as an order.
fn asked(ask: Result<Ask, Refusal>) -> Result<Order, Unread>
    requires served { IfOk ask IsServedAsk }
    ensures orders { IfOk result (λ order. (reading : Result Ask Refusal) → IfOk ask (λ ask. reading ≡ Ok ask) → asking_for reading ≡ Ok order) }
    ensures served { IfOk result IsServedOrder }
    ensures unread { IfErr result (λ unread. (reading : Result Ask Refusal) → IfErr ask (λ refusal. (refusal ≡ Refusal.NoMemory) ⊎ (reading ≡ Err refusal)) → IsUnread (asking_for reading) unread) }
{
    match ask {
        Ok(ask) => Ok(Order::Ask(ask)),
        Err(refusal) => Err(Unread::Refused(refusal)),
    }
}

/// What the method of a line and what follows it ask.
fn read_request(
    reader: &mut RequestReader,
    method: Method,
    rest: Option<&str>,
) -> Result<Ask, Refusal>
    ensures asks { IfOk result (λ ask. request_in method (option_copied rest.entry) ≡ Ok ask) }
    ensures refused { IfErr result (λ refusal. (refusal ≡ Refusal.NoMemory) ⊎ (request_in method (option_copied rest.entry) ≡ Err refusal)) }
    ensures served { IfOk result IsServedAsk }
{
    let Some(rest) = rest else {
        return Err(Refusal::BadLine);
    };
    let (word, rest) = cut(rest);
    let Some(target) = target_of(word) else {
        return Err(Refusal::BadLine);
    };
    let Some(body) = body_of(method, rest) else {
        return Err(Refusal::BadLine);
    };
    reader.read_ask(method, target, body.as_bytes())
}

fn method_of(word: &str) -> Option<Method>
    ensures { result ≡ method_of word.now }
{
    match word {
        "GET" => Some(Method::Get),
        "POST" => Some(Method::Post),
        "PUT" => Some(Method::Put),
        "DELETE" => Some(Method::Delete),
        _ => None,
    }
}

/// The text as a target, where it is one.
fn target_of(text: &str) -> Option<&str>
    ensures { option_copied result ≡ target_of text.now }
{
    match text.as_bytes() {
        [b'/', ..] => Some(text),
        _ => None,
    }
}

/// The body that follows the target, where the method may have it.
fn body_of(method: Method, rest: Option<&str>) -> Option<&str>
    ensures { option_copied result ≡ body_of method (option_copied rest.entry) }
{
    match rest {
        None => Some(""),
        Some(body) => { if takes_body(method) { Some(body) } else { None } }
    }
}

fn takes_body(method: Method) -> bool
    ensures { result ≡ takes_body method }
{
    matches!(method, Method::Post | Method::Put)
}
