//! What stands in front of a line's event: the task that runs, the CPU, the moment.

ghost use Rattle.std.specs.Prelude.{ℕ, ◌≡◌, ◌==◌, ◌≤◌, ◌+◌, IfSome, Option, length, not, position, reverse};
ghost use Rattle.std.specs.Char.{is_ascii_digit};
ghost use Rattle.text_bytes.specs.Lines.{is_space, words_of};
ghost use Rattle.trace_fields.specs.Opening.{before_brackets, last_digits, later_cpu, opening_from, opening_of, running, running_comm, trimmed, without_last};
ghost use Rattle.trace_fields.specs.declared.opening.CpuWord.{CpuWord};
ghost use Rattle.trace_fields.specs.inside.OpeningFits.{StartsWithin};

use crate::decimal::{bracketed, moment, number};
use crate::spaces::without_spaces;
use text_bytes::first_word;

/// How many CPUs a trace may name, from 0 on, and how many runqueues there may be.
pub const CPUS_MAX: u32 = 64;

/// The word of a line that names its CPU.
#[derive(Clone, Copy)]
pub struct CpuWord {
    pub cpu: u32,

    /// How many bytes stand before the word.
    pub start: usize,
}

/// What a line has up to its moment.
#[derive(Clone, Copy)]
pub struct Opening {
    /// In nanoseconds.
    pub at: u64,

    pub cpu: Option<CpuWord>,

    /// How many bytes stand before the end of the moment's word.
    pub end: usize,
}

/// How many spaces stand at the front of a text, and the text behind them: they tell nothing of an opening.
#[tactic(auto, using(crate::proofs::OpeningLemmas::behind_spaces, crate::proofs::OpeningLemmas::spaces_len))]
fn past_spaces(text: &[u8]) -> (usize, &[u8])
    ensures opening { (n : ℕ) (cpu : Option CpuWord) →
        opening_from (n + result.0) cpu (words_of result.1.now) ≡ opening_from n cpu (words_of text.now) }
    ensures len { result.0 + length result.1.now ≡ length text.now }
{
    let rest = without_spaces(text);
    (text.len().saturating_sub(rest.len()), rest)
}

/// What a line has up to its moment, where it has one.
pub fn opening_of(line: &[u8]) -> Option<Opening>
    ensures value { result ≡ opening_of line.now }
    ensures end { IfSome result (λ opening. opening.end ≤ length line.now) }
    ensures cpu { IfSome result (λ opening. StartsWithin opening.cpu (length line.now)) }
{
    let (mut start, mut text) = past_spaces(line);
    let mut cpu = None;
    loop {
        let (word, rest) = first_word(text);
        let end = start + word.len();
        if let Some(at) = moment(word) {
            return Some(Opening { at, cpu, end });
        }
        let (spaces, behind) = past_spaces(rest?);
        cpu = later_cpu(cpu, word, start);
        start = end + 1 + spaces;
        text = behind;
    }
}

fn later_cpu(earlier: Option<CpuWord>, word: &[u8], start: usize) -> Option<CpuWord>
    ensures { result ≡ later_cpu earlier word.now start }
{
    match bracketed(word) {
        None => earlier,
        Some(cpu) => Some(CpuWord { cpu, start }),
    }
}

fn other_from_end(text: &[u8]) -> Option<usize>
    ensures { result ≡ position (λ b. not (is_space b)) (reverse text.now) }
{
    text.iter().rev().position(|b| *b != b' ')
}

fn bracket_from_end(text: &[u8]) -> Option<usize>
    ensures { result ≡ position (λ b. b == 40) (reverse text.now) }
{
    text.iter().rev().position(|b| *b == b'(')
}

fn non_digit_from_end(text: &[u8]) -> Option<usize>
    ensures { result ≡ position (λ b. not (is_ascii_digit b)) (reverse text.now) }
{
    text.iter().rev().position(|b| !b.is_ascii_digit())
}

/// The text up to its last byte that is no space.
fn trimmed(text: &[u8]) -> &[u8]
    ensures { result.now ≡ trimmed text.now }
{
    &text[..text
        .len()
        .saturating_sub(other_from_end(text).unwrap_or(text.len()))]
}

/// The text before round brackets at its end.
fn before_brackets(text: &[u8]) -> &[u8]
    ensures { result.now ≡ before_brackets text.now }
{
    if text.ends_with(b")") {
        trimmed(
            &text[..text
                .len()
                .saturating_sub(bracket_from_end(text).unwrap_or(text.len()))
                .saturating_sub(1)],
        )
    } else {
        text
    }
}

/// The digits at the end of a text.
fn last_digits(text: &[u8]) -> &[u8]
    ensures { result.now ≡ last_digits text.now }
{
    &text[text
        .len()
        .saturating_sub(non_digit_from_end(text).unwrap_or(text.len()))..]
}

/// The pid of the task that runs, from what stands before the CPU's word.
pub fn running(front: &[u8]) -> Option<u64>
    ensures { result ≡ running front.now }
{
    number(last_digits(before_brackets(trimmed(front))))
}

/// A text without its last byte, which stands between a comm and its pid.
fn without_last(text: &[u8]) -> &[u8]
    ensures { result.now ≡ without_last text.now }
{
    &text[..text.len().saturating_sub(1)]
}

/// The pid and the comm of the task that runs, from what stands before the CPU's word.
pub fn running_task(front: &[u8]) -> (Option<u64>, &[u8])
    ensures pid { result.0 ≡ running front.now }
    ensures comm { result.1.now ≡ running_comm front.now }
{
    let text = before_brackets(trimmed(front));
    let digits = last_digits(text);
    let comm = without_last(&text[..text.len().saturating_sub(digits.len())]);
    (number(digits), without_spaces(trimmed(comm)))
}

/// The comm of the task that runs, from what stands before the CPU's word.
pub fn running_comm(front: &[u8]) -> &[u8]
    ensures { result.now ≡ running_comm front.now }
{
    running_task(front).1
}
