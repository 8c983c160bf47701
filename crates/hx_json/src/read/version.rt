// Versions as bodies give them.
ghost use Rattle.std.specs.Prelude.{◌≡◌, ◌≤◌, ◌<◌, IsTrue, length};
ghost use Rattle.std.specs.List.{list_all};
ghost use Rattle.hx_object.specs.Names.{is_digit};
ghost use Rattle.hx_json.specs.LongDecimals.{long_decimal};
ghost use Rattle.hx_json.specs.Reading.{begins_with_zero, is_long_decimal, number_in, version_in};

/// The version of a text, or 0, which no stored object has.
pub fn version_in(text: &str) -> u64
    ensures { result ≡ version_in text.now }
{
    let bytes = text.as_bytes();
    if !is_long_decimal(bytes) {
        return 0;
    }
    let number = number_in(bytes);
    if number <= i64::MAX as u64 { number } else { 0 }
}

/// The number that the bytes are: a decimal one without leading zeros, of at most 19 digits.
pub fn long_decimal(text: &[u8]) -> Option<u64>
    ensures { result ≡ long_decimal text.now }
{
    if is_long_decimal(text) {
        Some(number_in(text))
    } else {
        None
    }
}

/// Whether the bytes are a decimal number without leading zeros, of at most 19 digits.
fn is_long_decimal(text: &[u8]) -> bool
    ensures { result ≡ is_long_decimal text.now }
{
    1 <= text.len() && text.len() <= 19 && are_digits(text) && !begins_with_zero(text)
}

fn are_digits(text: &[u8]) -> bool
    ensures { result ≡ list_all is_digit text.now }
{
    for byte in text {
        if !byte.is_ascii_digit() {
            return false;
        }
    }
    true
}

fn begins_with_zero(text: &[u8]) -> bool
    ensures { result ≡ begins_with_zero text.now }
{
    match text {
        [first, _, ..] => *first == b'0',
        _ => false,
    }
}

fn number_in(text: &[u8]) -> u64
    requires short { length text.now ≤ 19 }
    requires digits { IsTrue (list_all is_digit text.now) }
    ensures { result ≡ number_in text.now }
{
    let mut number = 0;
    for byte in text {
        number = number * 10 + (*byte - b'0') as u64;
    }
    number
}
