//! Words of notes.

ghost use Rattle.std.specs.Prelude.{◌≡◌, ◌==◌, ◌+◌, ◌∷◌, [], MatchOption, length, not, option_map, position};
ghost use Rattle.std.specs.Char.{is_ascii_digit};
ghost use Rattle.std.specs.List.{slice_split};
ghost use Rattle.trace_fields.specs.Words.{text_of};
ghost use Rattle.trace_lines.specs.NoteWords.{behind_digits, front_number, is_comma, is_domain, kernel_of, kernel_with, number_in, optional, optional_sum, patch_of, range_from, range_in, rt_limit, runtime_limit, server_in, server_of, small, sum_word, word_in};

use text_bytes::first_word;
use trace_data::{Kernel, Limit, ServerReservation};
use trace_fields::{after, behind};
use trace_probes::{numeral, signed, unsigned};

/// How many CPUs a record may name, from 0 on.
pub const CPUS: u32 = 8192;

/// CPUs of a list, from `first` to `last`.
#[derive(Clone, Copy)]
pub struct CpuRange {
    pub first: u32,
    pub last: u32,
}

/// The word behind a key.
pub(crate) fn word_in<'a>(key: &[u8], text: &'a [u8]) -> Option<&'a [u8]>
    ensures { option_map text_of result ≡ word_in key.now text.now }
{
    let rest = behind(key, text)?;
    Some(first_word(rest).0)
}

/// The number behind a key.
pub(crate) fn number_in(key: &[u8], text: &[u8]) -> Option<u64>
    ensures { result ≡ number_in key.now text.now }
{
    unsigned(word_in(key, text)?)
}

/// The number behind a key, where the key stands there.
pub(crate) fn optional(key: &[u8], text: &[u8]) -> Option<Option<u64>>
    ensures { result ≡ optional key.now text.now }
{
    match word_in(key, text) {
        None => Some(None),
        Some(word) => Some(Some(unsigned(word)?)),
    }
}

/// A sum of bandwidths, modulo 2^64: the kernel may print it with a sign.
fn sum_word(word: &[u8]) -> Option<u64>
    ensures { result ≡ sum_word word.now }
{
    match after(b"-", word) {
        None => unsigned(word),
        Some(_) => Some(signed(word)?.cast_unsigned()),
    }
}

/// The sum behind a key, where the key stands there.
pub(crate) fn optional_sum(key: &[u8], text: &[u8]) -> Option<Option<u64>>
    ensures { result ≡ optional_sum key.now text.now }
{
    match word_in(key, text) {
        None => Some(None),
        Some(word) => Some(Some(sum_word(word)?)),
    }
}

/// A number that fits 32 bits.
pub(crate) fn small(n: u64) -> Option<u32>
    ensures { result ≡ small n }
{
    if n < 0x1_0000_0000 {
        Some(n as u32)
    } else {
        None
    }
}

fn digits_end(text: &[u8]) -> Option<usize>
    ensures { result ≡ position (λ b. not (is_ascii_digit b)) text.now }
{
    text.iter().position(|b| !b.is_ascii_digit())
}

/// The number that the digits at the front spell.
fn front_number(text: &[u8]) -> Option<u32>
    ensures { result ≡ front_number text.now }
{
    let digits = match digits_end(text) {
        None => text,
        Some(end) => &text[..end],
    };
    small(numeral(10, digits)?)
}

/// What stands behind the digits at the front.
fn behind_digits(text: &[u8]) -> &[u8]
    ensures { result.now ≡ behind_digits text.now }
{
    match digits_end(text) {
        None => &text[text.len()..],
        Some(end) => &text[end..],
    }
}

/// The third number of a version, or 0 where there is none.
fn patch_of(text: &[u8]) -> u32
    ensures { result ≡ patch_of text.now }
{
    match after(b".", text) {
        None => 0,
        Some(rest) => front_number(rest).unwrap_or(0),
    }
}

fn kernel_with(major: u32, text: &[u8]) -> Option<Kernel>
    ensures { result ≡ kernel_with major text.now }
{
    let rest = after(b".", text)?;
    let minor = front_number(rest)?;
    let patch = patch_of(behind_digits(rest));
    Some(Kernel {
        major,
        minor,
        patch,
    })
}

/// The version of a word such as `6.12.111+deb12-cloud-amd64`.
pub fn kernel_of(word: &[u8]) -> Option<Kernel>
    ensures { result ≡ kernel_of word.now }
{
    kernel_with(front_number(word)?, behind_digits(word))
}

fn colon_in(word: &[u8]) -> Option<usize>
    ensures { result ≡ position (λ b. b == 58) word.now }
{
    word.iter().position(|b| *b == b':')
}

fn runtime_limit(runtime: i64, period: u64) -> Option<Limit>
    ensures { result ≡ runtime_limit runtime period }
{
    if period == 0 {
        None
    } else {
        Some(Limit::Runtime { runtime, period })
    }
}

/// The limit of a word RUNTIME:PERIOD in microseconds.
pub(crate) fn rt_limit(word: &[u8]) -> Option<Limit>
    ensures { result ≡ rt_limit word.now }
{
    let colon = colon_in(word)?;
    let runtime = signed(&word[..colon])?;
    let period = unsigned(&word[colon + 1..])?;
    runtime_limit(runtime, period)
}

fn slash_in(word: &[u8]) -> Option<usize>
    ensures { result ≡ position (λ b. b == 47) word.now }
{
    word.iter().position(|b| *b == b'/')
}

/// The fair server of a word RUNTIME/PERIOD in nanoseconds.
fn server_of(word: &[u8]) -> Option<ServerReservation>
    ensures { result ≡ server_of word.now }
{
    let slash = slash_in(word)?;
    let dl_runtime = unsigned(&word[..slash])?;
    let dl_period = unsigned(&word[slash + 1..])?;
    Some(ServerReservation {
        dl_runtime,
        dl_period,
    })
}

/// The fair server behind `server=`, where that stands there.
pub(crate) fn server_in(text: &[u8]) -> Option<Option<ServerReservation>>
    ensures { result ≡ server_in text.now }
{
    match word_in(b"server=", text) {
        None => Some(None),
        Some(word) => Some(Some(server_of(word)?)),
    }
}

fn dash_in(part: &[u8]) -> Option<usize>
    ensures { result ≡ position (λ b. b == 45) part.now }
{
    part.iter().position(|b| *b == b'-')
}

/// These CPUs, where they are in order.
fn range_from(first: Option<u64>, last: Option<u64>) -> Option<CpuRange>
    ensures { result ≡ range_from first last }
{
    let (first, last) = (first?, last?);
    if first <= last && last < u64::from(CPUS) {
        Some(CpuRange {
            first: first as u32,
            last: last as u32,
        })
    } else {
        None
    }
}

/// The CPUs of a part of a list: one, as `5`, or those from one to another, as `0-3`.
pub fn range_in(part: &[u8]) -> Option<CpuRange>
    ensures { result ≡ range_in part.now }
{
    match dash_in(part) {
        None => range_from(numeral(10, part), numeral(10, part)),
        Some(dash) => range_from(numeral(10, &part[..dash]), numeral(10, &part[dash + 1..])),
    }
}

fn comma_in(word: &[u8]) -> Option<usize>
    ensures { result ≡ position is_comma word.now }
{
    word.iter().position(|b| *b == b',')
}

/// The first part of a list, and what follows its comma.
pub fn first_part(text: &[u8]) -> (&[u8], Option<&[u8]>)
    ensures parts { MatchOption result.1 (slice_split is_comma text.now ≡ result.0.now ∷ [])
        (λ rest. slice_split is_comma text.now ≡ result.0.now ∷ slice_split is_comma rest.now) }
    ensures len { MatchOption result.1 (length result.0.now ≡ length text.now)
        (λ rest. length result.0.now + 1 + length rest.now ≡ length text.now) }
{
    match comma_in(text) {
        None => (text, None),
        Some(i) => (&text[..i], Some(&text[i + 1..])),
    }
}

/// Whether a word lists CPUs, as 0-3,5.
pub(crate) fn is_domain(word: &[u8]) -> bool
    ensures { result ≡ is_domain word.now }
{
    let mut left = Some(word);
    while let Some(text) = left {
        let (part, rest) = first_part(text);
        if range_in(part).is_none() {
            return false;
        }
        left = rest;
    }
    true
}
