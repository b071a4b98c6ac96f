//! Fields KEY=VALUE of a line.

ghost use Rattle.std.specs.Prelude.{◌≡◌, ◌+◌, ◌≤◌, IfSome, length, option_map};
ghost use Rattle.trace_fields.specs.Words.{behind, cpu_field, deadline_field, filled, number_field, place_of, text_of, value_of};

use crate::decimal::{is_deadline, number, small_number};
use crate::front::begins;
use text_bytes::{first_word, space_in};

/// How many bytes stand before the first space that the key follows.
pub fn place_of(key: &[u8], text: &[u8]) -> Option<usize>
    ensures place { result ≡ place_of key.now text.now }
    ensures fits { IfSome result (λ i. i + 1 + length key.now ≤ length text.now) }
{
    let mut from = 0;
    let mut rest = text;
    loop {
        let Some(space) = space_in(rest) else {
            return None;
        };
        let next = &rest[space + 1..];
        if begins(next, key) {
            return Some(from + space);
        }
        from += space + 1;
        rest = next;
    }
}

/// What follows the first space with the key behind it.
pub fn behind<'a>(key: &[u8], text: &'a [u8]) -> Option<&'a [u8]>
    ensures { option_map text_of result ≡ behind key.now text.now }
{
    let place = place_of(key, text)?;
    Some(&text[place + 1 + key.len()..])
}

fn filled(word: &[u8]) -> Option<&[u8]>
    ensures { option_map text_of result ≡ filled word.now }
{
    if word.is_empty() { None } else { Some(word) }
}

/// The value of the field with this key: the word behind it, where that is not empty.
pub fn value_of<'a>(key: &[u8], text: &'a [u8]) -> Option<&'a [u8]>
    ensures { option_map text_of result ≡ value_of key.now text.now }
{
    let rest = behind(key, text)?;
    filled(first_word(rest).0)
}

/// The number that is the value of the field with this key.
pub fn number_field(key: &[u8], text: &[u8]) -> Option<u64>
    ensures { result ≡ number_field key.now text.now }
{
    number(value_of(key, text)?)
}

/// The CPU that is the value of the field with this key.
pub fn cpu_field(key: &[u8], text: &[u8]) -> Option<u32>
    ensures { result ≡ cpu_field key.now text.now }
{
    small_number(value_of(key, text)?)
}

/// Whether the field has the priority of SCHED_DEADLINE.
pub fn deadline_field(key: &[u8], text: &[u8]) -> Option<bool>
    ensures { result ≡ deadline_field key.now text.now }
{
    is_deadline(value_of(key, text)?)
}
