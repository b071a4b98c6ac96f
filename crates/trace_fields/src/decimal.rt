//! Decimal numbers and moments, as words of a trace spell them.

ghost use Rattle.std.specs.Prelude.{◌≡◌, ◌<◌, ◌*◌, ◌+◌, ◌&&◌, ◌==◌, min, true, position, option_map};
ghost use Rattle.std.specs.List.{list_all};
ghost use Rattle.std.specs.Char.{is_ascii_digit};
ghost use Rattle.trace_fields.specs.Numbers.{before_end, bracketed, fraction, is_deadline, moment, nanos, number, point_text, small_number};
ghost use Rattle.text_bytes.specs.Digits.{value};
ghost use Rattle.trace_fields.specs.Words.{text_of};

use crate::front::after;

/// The number that a word of digits spells, or the greatest `u64` where it is greater.
pub fn number(word: &[u8]) -> Option<u64>
    ensures { result ≡ number word.now }
{
    if !word.is_empty() && are_digits(word) {
        Some(capped_value(word))
    } else {
        None
    }
}

fn are_digits(word: &[u8]) -> bool
    ensures { result ≡ list_all is_ascii_digit word.now }
{
    word.iter().all(|c| c.is_ascii_digit())
}

fn capped_value(word: &[u8]) -> u64
    requires { list_all is_ascii_digit word.now ≡ true }
    ensures { result ≡ min (value word.now) 18446744073709551615 }
{
    let mut value = 0;
    for c in word {
        value = push_digit(value, *c - b'0');
    }
    value
}

fn push_digit(value: u64, digit: u8) -> u64
    requires { digit < 10 }
    ensures { result ≡ min (value * 10 + digit) 18446744073709551615 }
{
    value.saturating_mul(10).saturating_add(u64::from(digit))
}

/// The number that a word of digits spells, or the greatest `u32` where it is greater.
pub fn small_number(word: &[u8]) -> Option<u32>
    ensures { result ≡ small_number word.now }
{
    Some(number(word)?.min(u64::from(u32::MAX)) as u32)
}

/// What stands before the key at the end of a word.
pub fn before_end<'a>(key: &[u8], word: &'a [u8]) -> Option<&'a [u8]>
    ensures { option_map text_of result ≡ before_end key.now word.now }
{
    word.strip_suffix(key)
}

/// The CPU of a word such as `[003]`.
pub(crate) fn bracketed(word: &[u8]) -> Option<u32>
    ensures { result ≡ bracketed word.now }
{
    let rest = after(b"[", word)?;
    let digits = before_end(b"]", rest)?;
    small_number(digits)
}

/// Whether a priority is -1, that of SCHED_DEADLINE.
pub(crate) fn is_deadline(priority: &[u8]) -> Option<bool>
    ensures { result ≡ is_deadline priority.now }
{
    match after(b"-", priority) {
        None => is_one(number(priority), false),
        Some(digits) => is_one(number(digits), true),
    }
}

fn is_one(number: Option<u64>, is_negative: bool) -> Option<bool>
    ensures { result ≡ option_map (λ n. is_negative && (n == 1)) number }
{
    let n = number?;
    Some(is_negative && n == 1)
}

/// The moment of a word such as `1020.411177:`, in nanoseconds.
pub(crate) fn moment(word: &[u8]) -> Option<u64>
    ensures { result ≡ moment word.now }
{
    let text = before_end(b":", word)?;
    point_text(text)
}

fn dot_in(text: &[u8]) -> Option<usize>
    ensures { result ≡ position (λ b. b == 46) text.now }
{
    text.iter().position(|b| *b == b'.')
}

/// The moment of a text such as `1020.411177`, in nanoseconds.
pub fn point_text(text: &[u8]) -> Option<u64>
    ensures { result ≡ point_text text.now }
{
    let dot = dot_in(text)?;
    nanos(number(&text[..dot]), fraction(&text[dot + 1..]))
}

fn nanos(seconds: Option<u64>, part: Option<u64>) -> Option<u64>
    ensures { result ≡ nanos seconds part }
{
    match (seconds, part) {
        (Some(seconds), Some(part)) => Some(
            seconds.saturating_mul(1000000000).saturating_add(part),
        ),
        _ => None,
    }
}

/// The nanoseconds that six to nine digits behind a point spell.
fn fraction(digits: &[u8]) -> Option<u64>
    ensures { result ≡ fraction digits.now }
{
    match digits.len() {
        6 => scaled(number(digits), 1000),
        7 => scaled(number(digits), 100),
        8 => scaled(number(digits), 10),
        9 => number(digits),
        _ => None,
    }
}

fn scaled(number: Option<u64>, by: u64) -> Option<u64>
    ensures { result ≡ option_map (λ n. min (n * by) 18446744073709551615) number }
{
    Some(number?.saturating_mul(by))
}
