// Words that are joined by single spaces.
ghost use Rattle.std.specs.Prelude.{◌≡◌, ◌≤◌, ◌<◌, ◌&&◌, true, length, IfSome, option_copied};
ghost use Rattle.std.specs.List.{list_all};
ghost use Rattle.std.specs.Str.Parse.{digits_value};
ghost use Rattle.hx_object.specs.Names.{is_digit};
ghost use Rattle.hx_model.specs.First.{so};
ghost use Rattle.hx_script.specs.Words.{first_space, word_of, rest_of, is_short_decimal, has_no_leading_zero, is_number};

use memchr::memchr;

/// The first word, and what follows it and its space, where there is a space.
#[tactic(auto, unfolding(crate::specs::Words::word_of, crate::specs::Words::rest_of))]
pub fn cut(text: &str) -> (&str, Option<&str>)
    ensures word { result.0.now ≡ word_of text.now }
    ensures rest { option_copied result.1 ≡ rest_of text.now }
{
    match first_space(text) {
        Some(space) => (&text[..space], Some(&text[space + 1..])),
        None => (text, None),
    }
}

/// Where the first space is.
fn first_space(text: &str) -> Option<usize>
    ensures { result ≡ first_space text.now }
{
    memchr(b' ', text.as_bytes())
}

/// The number that a text is in decimal, without a leading zero, where it lies within the bounds. It has at most ten digits.
#[tactic(auto, unfolding(crate::specs::Words::is_number))]
pub fn number_in(least: u64, most: u64, text: &str) -> Option<u64>
    ensures number { result ≡ so (is_number least most text.now) (digits_value 10 text.now) }
    ensures bounds { IfSome result (λ value. (least ≤ value) × (value ≤ most)) }
{
    let digits = text.as_bytes();
    if !is_short_decimal(digits) {
        return None;
    }
    let value = value_of(digits);
    if least <= value && value <= most {
        Some(value)
    } else {
        None
    }
}

/// Whether the bytes are 1 to 10 digits without a leading zero.
#[tactic(auto, unfolding(crate::specs::Words::is_short_decimal))]
fn is_short_decimal(text: &[u8]) -> bool
    ensures decimal { result ≡ is_short_decimal text.now }
    ensures few { result ≡ true → length text.now ≤ 10 }
    ensures digits { result ≡ true → list_all is_digit text.now ≡ true }
{
    if text.is_empty() || text.len() > 10 {
        return false;
    }
    has_digits(text) && has_no_leading_zero(text)
}

fn has_digits(text: &[u8]) -> bool
    ensures { result ≡ list_all is_digit text.now }
{
    text.iter().all(|byte| is_digit(*byte))
}

fn is_digit(byte: u8) -> bool
    ensures { result ≡ is_digit byte }
{
    b'0' <= byte && byte <= b'9'
}

fn has_no_leading_zero(text: &[u8]) -> bool
    requires { 1 ≤ length text.now }
    ensures { result ≡ has_no_leading_zero text.now }
{
    text[0] != b'0' || text.len() == 1
}

/// The number that decimal digits stand for.
fn value_of(digits: &[u8]) -> u64
    requires few { length digits.now ≤ 10 }
    requires digits { list_all is_digit digits.now ≡ true }
    ensures { result ≡ digits_value 10 digits.now }
{
    let mut value = 0;
    for digit in digits {
        value = value * 10 + (*digit - b'0') as u64;
    }
    value
}
