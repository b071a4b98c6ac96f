//! Numbers as words spell them, where they fit 64 bits.

ghost use Rattle.std.specs.Prelude.{◌≡◌};
ghost use Rattle.std.specs.Char.{digit_value};
ghost use Rattle.trace_probes.specs.Numerals.{digits_from, negative, numeral, positive, pushed, signed, unsigned};

use trace_fields::after;

/// What a byte counts as a digit, from 0 to 35, or 36 where it is none.
pub(crate) fn digit(byte: u8) -> u64
    ensures { result ≡ digit_value byte }
{
    match byte {
        b'0'..=b'9' => u64::from(byte - b'0'),
        b'A'..=b'Z' => u64::from(byte - b'A') + 10,
        b'a'..=b'z' => u64::from(byte - b'a') + 10,
        _ => 36,
    }
}

/// A number with one digit more.
fn pushed(radix: u64, value: u64, byte: u8) -> Option<u64>
    ensures { result ≡ pushed radix value byte }
{
    let digit = digit(byte);
    if digit < radix {
        value.checked_mul(radix)?.checked_add(digit)
    } else {
        None
    }
}

/// A decimal number below this fits 64 bits with one digit more.
pub(crate) const FEW: u64 = 1844674407370955161;

fn pushed_decimal(value: u64, byte: u8) -> Option<u64>
    ensures { result ≡ pushed 10 value byte }
{
    let digit = digit(byte);
    if digit < 10 && value < FEW {
        Some(value * 10 + digit)
    } else {
        pushed(10, value, byte)
    }
}

fn decimal_digits(text: &[u8]) -> Option<u64>
    ensures { result ≡ digits_from 10 0 text.now }
{
    let mut value = 0;
    for byte in text {
        match pushed_decimal(value, *byte) {
            None => return None,
            Some(more) => value = more,
        }
    }
    Some(value)
}

fn decimal(word: &[u8]) -> Option<u64>
    ensures { result ≡ numeral 10 word.now }
{
    if word.is_empty() {
        None
    } else {
        decimal_digits(word)
    }
}

fn digits(radix: u64, text: &[u8]) -> Option<u64>
    ensures { result ≡ digits_from radix 0 text.now }
{
    let mut value = 0;
    for byte in text {
        match pushed(radix, value, *byte) {
            None => return None,
            Some(more) => value = more,
        }
    }
    Some(value)
}

/// The number that a word of digits spells, in a radix up to 36.
pub fn numeral(radix: u64, word: &[u8]) -> Option<u64>
    ensures { result ≡ numeral radix word.now }
{
    if word.is_empty() {
        None
    } else {
        digits(radix, word)
    }
}

/// The number of a word of decimal digits, or of `0x` and hexadecimal ones.
pub fn unsigned(word: &[u8]) -> Option<u64>
    ensures { result ≡ unsigned word.now }
{
    match after(b"0x", word) {
        None => decimal(word),
        Some(digits) => numeral(16, digits),
    }
}

pub(crate) fn positive(n: u64) -> Option<i64>
    ensures { result ≡ positive n }
{
    if n < 0x8000_0000_0000_0000 {
        Some(n as i64)
    } else {
        None
    }
}

fn negative(n: u64) -> Option<i64>
    ensures { result ≡ negative n }
{
    if n < 0x8000_0000_0000_0000 {
        Some(-(n as i64))
    } else {
        None
    }
}

/// The number of such a word, or of a minus and decimal digits; its size is below 2^63.
pub fn signed(word: &[u8]) -> Option<i64>
    ensures { result ≡ signed word.now }
{
    match after(b"-", word) {
        None => positive(unsigned(word)?),
        Some(digits) => negative(decimal(digits)?),
    }
}
