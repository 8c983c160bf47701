// Strings, numbers, amounts and commas of JSON texts.
ghost use Rattle.std.specs.Prelude.{◌≡◌, ◌++◌, ◌/◌, ◌%◌, ◌<◌, ◌∷◌, [], encode_utf8, string_bytes, OnOk};
ghost use Rattle.std.specs.Char.{digit_char};
ghost use Rattle.std.specs.Fmt.{decimal};
ghost use Rattle.json.specs.Print.{escape, quoted};
ghost use Rattle.serde_json.specs.Written.{comma_if};
ghost use Rattle.hx_object.specs.Kinds.{name_of, api_version_of};
ghost use Rattle.hx_object.specs.Quantities.{quantity_text};

use super::plain::plain_len;
use hx_object::{Kind, NoMemory, Text};
use hx_quantity::print;
use itoa::Buffer;

/// Appends a text as it is.
pub fn push(out: &mut String, text: &str) -> Result<(), NoMemory>
    ensures { OnOk result (string_bytes out.new ≡ string_bytes out.old ++ text.now) }
{
    Ok(out.push_str(text)?)
}

/// Appends a comma, where something stands before.
pub fn push_comma_if(out: &mut String, later: bool) -> Result<(), NoMemory>
    ensures { OnOk result (string_bytes out.new ≡ string_bytes out.old ++ comma_if later) }
{
    push(out, if later { "," } else { "" })
}

/// Appends a text in quotes.
pub fn push_quoted(out: &mut String, text: &str) -> Result<(), NoMemory>
    ensures { OnOk result (string_bytes out.new ≡ string_bytes out.old ++ quoted text.now) }
{
    push(out, "\"")?;
    push_inside(out, text)?;
    push(out, "\"")
}

/// Appends a text in quotes.
pub fn push_text(out: &mut String, text: &Text) -> Result<(), NoMemory>
    ensures { OnOk result (string_bytes out.new ≡ string_bytes out.old ++ quoted text.now) }
{
    push_quoted(out, text.as_str())
}

/// Appends what stands before a text, as it is, and the text in quotes.
pub fn push_named(out: &mut String, name: &str, text: &str) -> Result<(), NoMemory>
    ensures { OnOk result (string_bytes out.new ≡ string_bytes out.old ++ (name.now ++ quoted text.now)) }
{
    push(out, name)?;
    push_quoted(out, text)
}

/// Appends what stands before a text, as it is, and the text in quotes.
pub fn push_named_text(out: &mut String, name: &str, text: &Text) -> Result<(), NoMemory>
    ensures { OnOk result (string_bytes out.new ≡ string_bytes out.old ++ (name.now ++ quoted text.now)) }
{
    push_named(out, name, text.as_str())
}

/// Appends what stands before the version of a kind's group, and that in quotes.
pub fn push_api_version(out: &mut String, name: &str, kind: Kind) -> Result<(), NoMemory>
    ensures { OnOk result (string_bytes out.new ≡ string_bytes out.old ++ (name.now ++ quoted (api_version_of kind))) }
{
    push_named(out, name, kind.api_version())
}

/// Appends what stands before the name of a kind, and that in quotes.
pub fn push_kind(out: &mut String, name: &str, kind: Kind) -> Result<(), NoMemory>
    ensures { OnOk result (string_bytes out.new ≡ string_bytes out.old ++ (name.now ++ quoted (name_of kind))) }
{
    push_named(out, name, kind.name())
}

/// Appends what stands before a number, and the number in quotes.
pub fn push_named_number(out: &mut String, name: &str, number: u64) -> Result<(), NoMemory>
    ensures { OnOk result (string_bytes out.new ≡ string_bytes out.old ++ (name.now ++ quoted (decimal number))) }
{
    push_named(out, name, Buffer::new().format(number))
}

/// Appends a number.
pub fn push_number(out: &mut String, number: u64) -> Result<(), NoMemory>
    ensures { OnOk result (string_bytes out.new ≡ string_bytes out.old ++ decimal number) }
{
    push(out, Buffer::new().format(number))
}

/// Appends what stands before an amount, and the amount in quotes.
pub fn push_named_amount(out: &mut String, name: &str, amount: u128) -> Result<(), NoMemory>
    ensures { OnOk result (string_bytes out.new ≡ string_bytes out.old ++ (name.now ++ quoted (quantity_text amount))) }
{
    let text = print(*out.allocator(), amount)?;
    push_named_text(out, name, &text)
}

/// Appends what stands between quotes for a text: what wants no escape as it stands, and each character that wants one.
fn push_inside(out: &mut String, text: &str) -> Result<(), NoMemory>
    ensures { OnOk result (string_bytes out.new ≡ string_bytes out.old ++ escape text.now) }
{
    let mut rest = text;
    loop {
        let (plain, after) = rest.split_at(plain_len(rest.as_bytes()));
        push(out, plain)?;
        let mut chars = after.chars();
        let Some(c) = chars.next() else {
            return Ok(());
        };
        push_char(out, c)?;
        rest = chars.as_str();
    }
}

#[tactic(auto, using(crate::proofs::Escapes::high_char, crate::proofs::Escapes::plain_char), unfolding(json::specs::Print::escape_byte))]
fn push_char(out: &mut String, c: char) -> Result<(), NoMemory>
    ensures { OnOk result (string_bytes out.new ≡ string_bytes out.old ++ escape (encode_utf8 c)) }
{
    match c {
        '"' => push(out, "\\\""),
        '\\' => push(out, "\\\\"),
        '\u{8}' => push(out, "\\b"),
        '\u{c}' => push(out, "\\f"),
        '\n' => push(out, "\\n"),
        '\r' => push(out, "\\r"),
        '\t' => push(out, "\\t"),
        _ if c < ' ' => push_control(out, c as u32 as u8),
        _ => Ok(out.push(c)?),
    }
}

/// Appends a control character by its number.
fn push_control(out: &mut String, byte: u8) -> Result<(), NoMemory>
    requires { byte < 32 }
    ensures { OnOk result (string_bytes out.new ≡ string_bytes out.old ++ (92 ∷ 117 ∷ 48 ∷ 48 ∷ digit_char (byte / 16) ∷ digit_char (byte % 16) ∷ [])) }
{
    push(out, "\\u00")?;
    push_digit(out, byte / 16)?;
    push_digit(out, byte % 16)
}

fn push_digit(out: &mut String, digit: u8) -> Result<(), NoMemory>
    requires { digit < 16 }
    ensures { OnOk result (string_bytes out.new ≡ string_bytes out.old ++ (digit_char digit ∷ [])) }
{
    let byte = if digit < 10 {
        b'0' + digit
    } else {
        b'a' - 10 + digit
    };
    Ok(out.push(byte as char)?)
}
