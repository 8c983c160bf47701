// Quantities.
ghost use Rattle.std.specs.Prelude.{◌≡◌, ◌<◌, ◌≤◌, ◌*◌, ◌^◌, true, length};
ghost use Rattle.std.specs.Int.{div_ceil};
ghost use Rattle.std.specs.List.{list_all};
ghost use Rattle.std.specs.Str.Parse.{digits_value};
ghost use Rattle.hx_object.specs.Names.{is_digit};
ghost use Rattle.hx_quantity.specs.Inside.{times, written};
ghost use Rattle.hx_object.specs.Quantities.{amount_of, number_of, quantity_of, scaled};

use crate::factor::{Factor, factor_of};
use crate::parts::{Parts, parts_of};
use hx_object::QuantityFault;

/// How many digits may stand before the point.
const MOST_WHOLE: usize = 18;

/// How many digits may stand behind the point.
const MOST_FRACTION: usize = 9;

/// Reads a quantity, in thousandths, rounded up. The first fault counts, in the order of [`QuantityFault`].
///
/// The suffixes are `n`, `u`, `m`, `k`, `M`, `G`, `T`, `P` and `E` for powers of 1,000, and `Ki`, `Mi`, `Gi`, `Ti`, `Pi` and `Ei` for powers of 1,024.
#[tactic(auto, unfolding(hx_object::specs::Quantities::quantity_of))]
pub fn read(text: &str) -> Result<u64, QuantityFault>
    ensures { result ≡ quantity_of text.now }
{
    let parts = parts_of(text.as_bytes());
    let Some(factor) = factor_of(parts.suffix) else {
        return Err(QuantityFault::Syntax);
    };
    if parts.whole.is_empty() && parts.fraction.is_empty() {
        return Err(QuantityFault::Syntax);
    }
    if parts.whole.len() > MOST_WHOLE || parts.fraction.len() > MOST_FRACTION {
        return Err(QuantityFault::TooLong);
    }
    scaled(number_of(parts), parts.fraction.len() as u32, factor)
}

/// The digits before and behind the point as one number.
fn number_of(parts: Parts<'_>) -> u128
    requires whole { list_all is_digit parts.whole.now ≡ true }
    requires fraction { list_all is_digit parts.fraction.now ≡ true }
    requires whole_len { length parts.whole.now ≤ 18 }
    requires fraction_len { length parts.fraction.now ≤ 9 }
    ensures { result ≡ number_of (written parts.entry) }
{
    let whole = value_of(parts.whole) as u128;
    whole * 10u128.pow(parts.fraction.len() as u32) + value_of(parts.fraction) as u128
}

/// The number that decimal digits stand for.
fn value_of(digits: &[u8]) -> u64
    requires few { length digits.now ≤ 18 }
    requires digits { list_all is_digit digits.now ≡ true }
    ensures value { result ≡ digits_value 10 digits.now }
    ensures below { result < 10 ^ length digits.now }
{
    let mut value = 0;
    for digit in digits {
        value = value * 10 + (*digit - b'0') as u64;
    }
    value
}

/// The amount of a number whose last digits, so many, stand behind the point.
fn scaled(number: u128, places: u32, factor: Factor) -> Result<u64, QuantityFault>
    requires places { places ≤ 9 }
    requires over { 0 < factor.over }
    ensures { result ≡ amount_of (scaled number places (times factor)) }
{
    let over = divisor(places, factor);
    let Some(product) = number.checked_mul(factor.times as u128 * 1_000) else {
        return Err(QuantityFault::TooLarge);
    };
    let amount = product.div_ceil(over);
    if amount > i64::MAX as u128 {
        return Err(QuantityFault::TooLarge);
    }
    Ok(amount as u64)
}

/// What the digits of a number are divided by.
fn divisor(places: u32, factor: Factor) -> u128
    requires places { places ≤ 9 }
    requires over { 0 < factor.over }
    ensures value { result ≡ factor.over * 10 ^ places }
    ensures some { 0 < result }
    ensures few { result ≤ 2 ^ 62 }
{
    factor.over as u128 * 10u128.pow(places)
}
