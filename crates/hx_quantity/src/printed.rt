// Amounts as they are printed.
ghost use Rattle.std.specs.Prelude.{◌≡◌, ◌+◌, ◌-◌, ◌*◌, true, IfOk};
ghost use Rattle.std.specs.List.{list_all};
ghost use Rattle.std.specs.Str.Parse.{digits_value};
ghost use Rattle.hx_object.specs.Names.{is_digit};
ghost use Rattle.hx_object.specs.Quantities.{quantity_text};
ghost use Rattle.hx_quantity.specs.Printed.{if_held, printed_amount};

use crate::parts::cut_digits;
use hx_object::{NoMemory, Text};
use std::alloc::Global;

/// The canonical text of an amount in thousandths: in whole units where it is whole, else in thousandths.
#[tactic(auto, unfolding(hx_object::specs::Quantities::quantity_text))]
pub fn print(alloc: Global, amount: u128) -> Result<Text, NoMemory>
    ensures { IfOk result (λ text. text ≡ quantity_text amount) }
{
    if amount.is_multiple_of(1_000) {
        return Ok(Text::of_string((amount / 1_000).to_string(alloc)?));
    }
    let mut text = amount.to_string(alloc)?;
    text.push_str("m")?;
    Ok(Text::of_string(text))
}

/// The amount in thousandths that a printed text says: each that [`print`] takes is read back from its text, where [`read`](crate::read) refuses those past 2^63 - 1.
#[tactic(auto, unfolding(crate::specs::Printed::printed_amount))]
pub fn read_printed(text: &str) -> Option<u128>
    ensures { result ≡ printed_amount text.now }
{
    let (digits, rest) = cut_digits(text.as_bytes());
    if digits.is_empty() {
        return None;
    }
    match rest {
        b"" => units_in(digits),
        b"m" => number_in(digits),
        _ => None,
    }
}

/// The thousandths of so many whole units.
fn units_in(digits: &[u8]) -> Option<u128>
    requires { list_all is_digit digits.now ≡ true }
    ensures { result ≡ if_held (digits_value 10 digits.now * 1000) }
{
    number_in(digits)?.checked_mul(1_000)
}

/// The number that decimal digits stand for, where 128 bits hold it.
fn number_in(digits: &[u8]) -> Option<u128>
    requires { list_all is_digit digits.now ≡ true }
    ensures { result ≡ if_held (digits_value 10 digits.now) }
{
    let mut number: u128 = 0;
    for digit in digits {
        number = with_digit(number, *digit)?;
    }
    Some(number)
}

/// A number with one more digit behind it.
fn with_digit(number: u128, digit: u8) -> Option<u128>
    requires { is_digit digit ≡ true }
    ensures { result ≡ if_held (number * 10 + (digit - 48)) }
{
    number
        .checked_mul(10)?
        .checked_add(u128::from(digit - b'0'))
}
