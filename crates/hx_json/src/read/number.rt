// Numbers that are whole.
ghost use Rattle.std.specs.Prelude.{◌≡◌, ◌<◌, ◌==◌, ◌++◌, IsTrue, OnOk, length, option_map, slice_index, string_bytes, true, false};
ghost use Rattle.serde_json.specs.Read.{number_from};
ghost use Rattle.serde_json.specs.Written.{number_text};
ghost use Rattle.hx_json.specs.Inside.{num_of};
ghost use Rattle.hx_json.specs.Trees.{unless_float, whole_in, whole_or_zero};

use crate::write::text::push;
use fast_float::Numeral;
use hx_object::NoMemory;
use itoa::Buffer;

/// A whole number of 64 bits.
#[derive(Clone, Copy)]
pub enum Whole {
    Unsigned(u64),
    Negative(i64),
}

/// The whole number that a number's text is.
pub fn whole_in(text: &str) -> Option<Whole>
    ensures { option_map num_of result ≡ whole_in text.now }
{
    let bytes = text.as_bytes();
    if has_minus(bytes) {
        negative(&Numeral::scan(&bytes[1..]))
    } else {
        unsigned(&Numeral::scan(bytes))
    }
}

fn has_minus(bytes: &[u8]) -> bool
    ensures value { result ≡ (slice_index bytes.now 0 == 45) }
    ensures some { IsTrue result → 0 < length bytes.now }
{
    !bytes.is_empty() && bytes[0] == b'-'
}

#[tactic(auto, using(crate::proofs::Numbers::no_whole))]
fn unsigned(numeral: &Numeral<'_>) -> Option<Whole>
    ensures { option_map num_of result ≡ unless_float (number_from false numeral.now) }
{
    match numeral.to_u64() {
        Some(n) => Some(Whole::Unsigned(n)),
        None => None,
    }
}

#[tactic(auto, using(crate::proofs::Numbers::no_whole))]
fn negative(numeral: &Numeral<'_>) -> Option<Whole>
    ensures { option_map num_of result ≡ unless_float (number_from true numeral.now) }
{
    match numeral.to_i64(true) {
        Some(n) if n < 0 => Some(Whole::Negative(n)),
        _ => None,
    }
}

/// The same, and zero where there is none.
pub fn whole_or_zero(text: &str) -> Whole
    ensures { num_of result ≡ whole_or_zero text.now }
{
    match whole_in(text) {
        Some(whole) => whole,
        None => Whole::Unsigned(0),
    }
}

/// The number in decimal.
pub fn push_number(out: &mut String, text: &str) -> Result<(), NoMemory>
    ensures { OnOk result (string_bytes out.new ≡ string_bytes out.old ++ number_text (whole_or_zero text.now)) }
{
    let mut buffer = Buffer::new();
    match whole_or_zero(text) {
        Whole::Unsigned(n) => push(out, buffer.format(n)),
        Whole::Negative(n) => push(out, buffer.format(n)),
    }
}
