// Quantities, by the grammar that the Kubernetes documentation gives them (`resource.Quantity`), without signs and exponents.
ghost use Rattle.std.specs.Prelude.{◌<◌};

use hx_object::{NoMemory, QuantityFault};
use hx_quantity::{print, read, read_printed};
use std::alloc::Global;
use std::test::Fail;

/// How many texts there are.
const COUNT: usize = 238;

/// Texts. Behind each stands its amount in thousandths, or its fault.
const ROWS: [&str; COUNT] = [
    // whole numbers
    "0 => 0",
    "1 => 1000",
    "9 => 9000",
    "10 => 10000",
    "42 => 42000",
    "007 => 7000",
    "00 => 0",
    "1000 => 1000000",
    "999999999999999 => 999999999999999000",
    "9223372036854775 => 9223372036854775000",
    "9223372036854776 => large",
    "123456789012345678 => large",
    "999999999999999999 => large",
    "000000000000000001 => 1000",
    "0000000000000000001 => long",
    "0000000000000000000 => long",
    "1234567890123456789 => long",
    "9999999999999999999 => long",
    // a point
    "0.5 => 500",
    "1. => 1000",
    "0. => 0",
    ".5 => 500",
    ".0 => 0",
    "1.5 => 1500",
    "0.001 => 1",
    "0.0001 => 1",
    "0.0015 => 2",
    "3.14159 => 3142",
    "2.999999999 => 3000",
    "0.000000001 => 1",
    "0.000000000 => 0",
    "1.000000001 => 1001",
    "1.0000000000 => long",
    "0.1234567890 => long",
    ".999999999 => 1000",
    ".0000000000 => long",
    "00.50 => 500",
    "9223372036854775.807 => 9223372036854775807",
    "9223372036854775.808 => large",
    "9223372036854775.807000000 => 9223372036854775807",
    "9223372036854775.807000001 => large",
    "999999999999999999.999999999 => large",
    "0000000000000000000.5 => long",
    "1.00000000000 => long",
    // each suffix
    "1n => 1",
    "1u => 1",
    "1m => 1",
    "1k => 1000000",
    "1M => 1000000000",
    "1G => 1000000000000",
    "1T => 1000000000000000",
    "1P => 1000000000000000000",
    "1E => large",
    "1Ki => 1024000",
    "1Mi => 1048576000",
    "1Gi => 1073741824000",
    "1Ti => 1099511627776000",
    "1Pi => 1125899906842624000",
    "1Ei => large",
    // each suffix behind a point
    "2.5n => 1",
    "2.5u => 1",
    "2.5m => 3",
    "2.5k => 2500000",
    "2.5M => 2500000000",
    "2.5G => 2500000000000",
    "2.5T => 2500000000000000",
    "2.5P => 2500000000000000000",
    "2.5E => large",
    "2.5Ki => 2560000",
    "2.5Mi => 2621440000",
    "2.5Gi => 2684354560000",
    "2.5Ti => 2748779069440000",
    "2.5Pi => 2814749767106560000",
    "2.5Ei => large",
    ".5Ki => 512000",
    "1.Mi => 1048576000",
    ".25m => 1",
    "7.Gi => 7516192768000",
    // the largest of each suffix, and what is past it
    "999999999999999999n => 1000000000000",
    "999999999999999999u => 1000000000000000",
    "999999999999999999m => 999999999999999999",
    "9223372036854k => 9223372036854000000",
    "9223372036855k => large",
    "9223372036.854775807M => 9223372036854775807",
    "9223372036.854775808M => large",
    "9223372.036854775G => 9223372036854775000",
    "9223372.036854776G => large",
    "9223372.036854775807G => long",
    "9223T => 9223000000000000000",
    "9224T => large",
    "9P => 9000000000000000000",
    "10P => large",
    "9.223372036P => 9223372036000000000",
    "9.223372037P => large",
    "0.009E => 9000000000000000000",
    "0.009223372E => 9223372000000000000",
    "0.009223373E => large",
    "0.01E => large",
    "9007199254740Ki => 9223372036853760000",
    "9007199254740.992Ki => large",
    "9007199254740.991999999Ki => large",
    "9007199254741Ki => large",
    "8796093022Mi => 9223372036636672000",
    "8796093022.208Mi => large",
    "8796093023Mi => large",
    "8589934Gi => 9223371401199616000",
    "8589934.592Gi => large",
    "8589935Gi => large",
    "8388Ti => 9222703533785088000",
    "8388.608Ti => large",
    "8388.607999999Ti => 9223372036853676297",
    "8389Ti => large",
    "8Pi => 9007199254740992000",
    "8.192Pi => large",
    "8.191999999Pi => 9223372035728875902",
    "9Pi => large",
    "0.007Ei => 8070450532247928832",
    "0.008Ei => large",
    "0.007999999Ei => 9223370883933271202",
    "999999999999999999.999999999E => large",
    "999999999999999999.999999999Ei => large",
    // nothing of a large suffix
    "0Ei => 0",
    "0.000000000Ei => 0",
    "0E => 0",
    "000000000000000000Ei => 0",
    "0.000000001Ei => 1152921504607",
    "0.000000001E => 1000000000000",
    "0.000000001Ki => 1",
    "0.000000001n => 1",
    "0.0n => 0",
    // rounded up
    "0n => 0",
    "1001u => 2",
    "1000u => 1",
    "999u => 1",
    "1000001n => 2",
    "1000000n => 1",
    "999999n => 1",
    "1.1m => 2",
    "1.0m => 1",
    "0.1m => 1",
    "1.000000001m => 2",
    "1500m => 1500",
    "250m => 250",
    "0.999u => 1",
    "123.456789u => 1",
    // no number
    " => syntax",
    "  => syntax",
    ". => syntax",
    ".. => syntax",
    "m => syntax",
    "Ki => syntax",
    ".m => syntax",
    ".Ki => syntax",
    "k1 => syntax",
    "n => syntax",
    "i => syntax",
    "- => syntax",
    "+ => syntax",
    "e => syntax",
    // signs and exponents
    "-1 => syntax",
    "+1 => syntax",
    "-0 => syntax",
    "+0.5 => syntax",
    "-.5 => syntax",
    "1- => syntax",
    "1e3 => syntax",
    "1E3 => syntax",
    "1e => syntax",
    "1e+3 => syntax",
    "1E-3 => syntax",
    "1.5e2 => syntax",
    "1e0 => syntax",
    "0e0 => syntax",
    "2E2 => syntax",
    "1E0 => syntax",
    "5e-1Ki => syntax",
    // blanks and other bytes
    " 1 => syntax",
    "1  => syntax",
    "1 Ki => syntax",
    "1\t => syntax",
    "\n1 => syntax",
    "1_000 => syntax",
    "1,5 => syntax",
    "1,000 => syntax",
    "0x10 => syntax",
    "1é => syntax",
    "é => syntax",
    "1µ => syntax",
    "１ => syntax",
    "٣ => syntax",
    "1\u{0} => syntax",
    // other suffixes
    "1K => syntax",
    "1g => syntax",
    "1t => syntax",
    "1p => syntax",
    "1ki => syntax",
    "1KI => syntax",
    "1kI => syntax",
    "1mi => syntax",
    "1ni => syntax",
    "1ui => syntax",
    "1gi => syntax",
    "1Kib => syntax",
    "1KiB => syntax",
    "1MB => syntax",
    "1Mb => syntax",
    "1B => syntax",
    "1i => syntax",
    "1Eii => syntax",
    "1EiEi => syntax",
    "1mm => syntax",
    "1nm => syntax",
    "1kk => syntax",
    "1h => syntax",
    "1% => syntax",
    "1U => syntax",
    "1N => syntax",
    "1Mi. => syntax",
    "1m5 => syntax",
    "1.m. => syntax",
    "1Ki1 => syntax",
    // points twice
    "1.2.3 => syntax",
    "1..2 => syntax",
    "..1 => syntax",
    "1.. => syntax",
    "1.2. => syntax",
    ".1. => syntax",
    ". 5 => syntax",
    "1. 5 => syntax",
    // the first fault
    "9999999999999999999Ei => long",
    "0000000000000000000x => syntax",
    "99999999999999999999. => long",
    "1.0000000000x => syntax",
    "1.0000000000Ei => long",
    "9999999999999999999e3 => syntax",
    "-9999999999999999999 => syntax",
    "999999999999999999.9999999999Ei => long",
    "999999999999999999Eix => syntax",
];

/// How many amounts there are.
const PRINTED_COUNT: usize = 21;

/// Amounts in thousandths, each with its text.
const PRINTED: [(u128, &str); PRINTED_COUNT] = [
    (0, "0"),
    (1, "1m"),
    (999, "999m"),
    (1_000, "1"),
    (1_001, "1001m"),
    (1_500, "1500m"),
    (250, "250m"),
    (10, "10m"),
    (100, "100m"),
    (10_000, "10"),
    (1_024_000, "1024"),
    (999_999_999_999_999_999, "999999999999999999m"),
    (1_000_000_000_000_000_000, "1000000000000000"),
    (9_223_372_036_854_775_807, "9223372036854775807m"),
    (9_223_372_036_854_775_000, "9223372036854775"),
    (18_446_744_073_709_551_616, "18446744073709551616m"),
    (18_446_744_073_709_551_615, "18446744073709551615m"),
    (
        170_141_183_460_469_231_731_687_303_715_884_105_728,
        "170141183460469231731687303715884105728m",
    ),
    (
        170_141_183_460_469_231_731_687_303_715_884_105_736,
        "170141183460469231731687303715884105736m",
    ),
    (
        340_282_366_920_938_463_463_374_607_431_768_211_455,
        "340282366920938463463374607431768211455m",
    ),
    (
        340_282_366_920_938_463_463_374_607_431_768_211_000,
        "340282366920938463463374607431768211",
    ),
];

/// How many texts there are that no amount is printed as.
const OTHER_COUNT: usize = 12;

/// Texts that no amount is printed as.
const OTHERS: [&str; OTHER_COUNT] = [
    "",
    "m",
    "-1",
    "+1",
    " 1",
    "1 ",
    "1.5",
    "1k",
    "1mm",
    "1m1",
    "340282366920938463463374607431768211456m",
    "340282366920938463463374607431768212",
];

/// The row at a place of the table.
fn row(index: usize) -> &'static str
    requires { index < 238 }
{
    ROWS[index]
}

fn printed(index: usize) -> (u128, &'static str)
    requires { index < 21 }
{
    PRINTED[index]
}

fn other(index: usize) -> &'static str
    requires { index < 12 }
{
    OTHERS[index]
}

/// A row's text, and what it tells of that.
fn cut(row: &str) -> (&str, &str) {
    match row.rsplit_once(" => ") {
        Some(parts) => parts,
        None => (row, ""),
    }
}

/// What a row tells of how its text is read.
fn told(alloc: Global, read: Result<u64, QuantityFault>) -> Result<String, NoMemory> {
    match read {
        Ok(amount) => Ok(amount.to_string(alloc)?),
        Err(QuantityFault::Syntax) => Ok(String::from_str(alloc, "syntax")?),
        Err(QuantityFault::TooLong) => Ok(String::from_str(alloc, "long")?),
        Err(QuantityFault::TooLarge) => Ok(String::from_str(alloc, "large")?),
    }
}

#[test]
fn quantities_are_as_documented(rt: HostRuntime) -> Result<(), Fail> {
    for index in 0..COUNT {
        let (text, wanted) = cut(row(index));
        let told = told(rt.alloc(), read(text))?;
        assert_eq!(rt; told.as_str(), wanted, "{text}");
    }
    Ok(())
}

#[test]
fn amounts_are_printed(rt: HostRuntime) -> Result<(), Fail> {
    for index in 0..PRINTED_COUNT {
        let (amount, wanted) = printed(index);
        let text = print(rt.alloc(), amount)?;
        assert_eq!(rt; text.as_str(), wanted);
    }
    Ok(())
}

/// Whether a text is read as an amount that was printed.
fn is_read_as(text: &str, amount: u128) -> bool {
    matches!(read_printed(text), Some(read) if read == amount)
}

#[test]
fn printed_amounts_are_read(rt: HostRuntime) {
    for index in 0..PRINTED_COUNT {
        let (amount, text) = printed(index);
        assert!(rt; is_read_as(text, amount), "{text}");
    }
    for index in 0..OTHER_COUNT {
        assert!(rt; read_printed(other(index)).is_none());
    }
}
