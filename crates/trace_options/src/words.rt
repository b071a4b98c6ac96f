//! Words of options.

ghost use Rattle.std.specs.Prelude.{◌≡◌, ◌<◌, ◌==◌, ◌^◌, IfOk, option_map, position};
ghost use Rattle.std.specs.Path.{rsplit_once};
ghost use Rattle.trace_fields.specs.Words.{text_of};
ghost use Rattle.trace_options.specs.Words.{colon_parts, domain_in, is_behind, limit_from, limit_in, limit_with, moment_in, moment_from, moment_with, ordered, parameters_in, reservation_in, reserved, server_in, server_with, span_in, texts_of};

use std::alloc::{AllocError, Global};
use trace_data::{Limit, Parameters};
use trace_fields::before_end;
use trace_lines::{CpuRange, first_part, range_in};
use trace_probes::numeral;

/// Nanoseconds of a microsecond.
pub(crate) const MICRO: u64 = 1000;

/// Nanoseconds of a second.
const SECOND: u64 = 1_000_000_000;

/// SCHED_FLAG_RECLAIM of sched_setattr(2).
const RECLAIM: u64 = 2;

/// The server of fair tasks that each runqueue has.
#[derive(Clone, Copy)]
pub enum FairServerOption {
    /// That of the recorded kernel.
    Usual,
    Absent,

    /// Its runtime and period, in nanoseconds.
    Reserves { dl_runtime: u64, dl_period: u64 },
}

/// What stands before the last one of an ASCII character, and behind it.
pub fn last_parts(text: &str, at: char) -> Option<(&str, &str)>
    requires { at < 128 }
    ensures { option_map texts_of result ≡ rsplit_once at text.now }
{
    text.rsplit_once(at)
}

fn colon_in(text: &[u8]) -> Option<usize>
    ensures { result ≡ position (λ b. b == 58) text.now }
{
    text.iter().position(|b| *b == b':')
}

/// What stands before the first colon, and behind it.
fn colon_parts(text: &[u8]) -> Option<(&[u8], &[u8])>
    ensures { option_map texts_of result ≡ colon_parts text.now }
{
    let colon = colon_in(text)?;
    Some((&text[..colon], &text[colon + 1..]))
}

/// A span of so many microseconds, in nanoseconds: from 1 microsecond to 2^44, which is half a year.
fn span_of(text: &[u8]) -> Option<u64>
    ensures { result ≡ span_in text.now }
{
    let micros = numeral(10, text)?;
    if micros == 0 || micros >= 1 << 44 {
        return None;
    }
    Some(micros * MICRO)
}

fn ordered(parameters: Parameters) -> Option<Parameters>
    ensures { result ≡ ordered parameters }
{
    if parameters.dl_runtime <= parameters.dl_deadline
        && parameters.dl_deadline <= parameters.dl_period
    {
        Some(parameters)
    } else {
        None
    }
}

fn reserved(
    flags: u64,
    runtime: Option<u64>,
    period: Option<u64>,
    deadline: Option<u64>,
) -> Option<Parameters>
    ensures { result ≡ reserved flags runtime period deadline }
{
    ordered(Parameters {
        dl_runtime: runtime?,
        dl_deadline: deadline?,
        dl_period: period?,
        flags,
    })
}

/// The reservation of `RUNTIME:PERIOD` or `RUNTIME:PERIOD:DEADLINE`, in microseconds: runtime <= deadline <= period.
fn parameters_of(flags: u64, text: &[u8]) -> Option<Parameters>
    ensures { result ≡ parameters_in flags text.now }
{
    let (runtime, rest) = colon_parts(text)?;
    match colon_parts(rest) {
        None => reserved(flags, span_of(runtime), span_of(rest), span_of(rest)),
        Some((period, deadline)) => {
            reserved(flags, span_of(runtime), span_of(period), span_of(deadline))
        }
    }
}

/// The reservation of `RUNTIME:PERIOD[:DEADLINE][,norec]`: without `,norec` it has SCHED_FLAG_RECLAIM.
pub(crate) fn reservation_of(text: &[u8]) -> Option<Parameters>
    ensures { result ≡ reservation_in text.now }
{
    match before_end(b",norec", text) {
        None => parameters_of(RECLAIM, text),
        Some(front) => parameters_of(0, front),
    }
}

fn limit_from(period: u64, runtime: Option<u64>) -> Option<Limit>
    requires { period < 2 ^ 32 }
    ensures { result ≡ limit_from period runtime }
{
    let runtime = runtime?;
    if runtime == 0 || runtime > period {
        return None;
    }
    Some(Limit::Runtime {
        runtime: runtime as i64,
        period,
    })
}

fn limit_with(runtime: &[u8], period: u64) -> Option<Limit>
    ensures { result ≡ limit_with runtime.now period }
{
    if period == 0 || period >= 1 << 32 {
        return None;
    }
    if runtime == b"-1".as_slice() {
        return Some(Limit::Runtime {
            runtime: -1,
            period,
        });
    }
    limit_from(period, numeral(10, runtime))
}

/// How much of a processor SCHED_DEADLINE may have, of `RUNTIME:PERIOD` in microseconds; a runtime of -1 is no limit.
pub(crate) fn limit_of(text: &[u8]) -> Option<Limit>
    ensures { result ≡ limit_in text.now }
{
    let (runtime, period) = colon_parts(text)?;
    limit_with(runtime, numeral(10, period)?)
}

fn server_with(runtime: &[u8], period: &[u8]) -> Option<FairServerOption>
    ensures { result ≡ server_with (runtime.now, period.now) }
{
    let parameters = reserved(0, span_of(runtime), span_of(period), span_of(period))?;
    Some(FairServerOption::Reserves {
        dl_runtime: parameters.dl_runtime,
        dl_period: parameters.dl_period,
    })
}

/// The server of fair tasks of `RUNTIME:PERIOD`, in microseconds, or `none`.
pub(crate) fn server_of(text: &[u8]) -> Option<FairServerOption>
    ensures { result ≡ server_in text.now }
{
    if text == b"none".as_slice() {
        return Some(FairServerOption::Absent);
    }
    let (runtime, period) = colon_parts(text)?;
    server_with(runtime, period)
}

/// Whether CPUs are above those before them.
fn is_behind(before: Option<CpuRange>, range: CpuRange) -> bool
    ensures { result ≡ is_behind before range }
{
    match before {
        None => true,
        Some(before) => before.last < range.first,
    }
}

/// The CPUs of a list as `0-3,8`, which increase; none where it is no such list. `AllocError` is want of memory.
pub fn domain_of(alloc: Global, text: &[u8]) -> Result<Option<Vec<CpuRange>>, AllocError>
    ensures { IfOk result (λ made. option_map (λ v. v.items) made ≡ domain_in text.now) }
{
    let mut ranges = Vec::new(alloc);
    let mut before = None;
    let mut left = Some(text);
    while let Some(text) = left {
        let (part, rest) = first_part(text);
        let Some(range) = range_in(part) else {
            return Ok(None);
        };
        if !is_behind(before, range) {
            return Ok(None);
        }
        if ranges.push(range).is_err() {
            return Err(AllocError);
        }
        before = Some(range);
        left = rest;
    }
    Ok(Some(ranges))
}

fn point_in(text: &[u8]) -> Option<usize>
    ensures { result ≡ position (λ b. b == 46) text.now }
{
    text.iter().position(|b| *b == b'.')
}

fn moment_from(seconds: u64, digits: u64, count: usize) -> Option<u64>
    requires { count < 10 }
    ensures { result ≡ moment_from seconds digits count }
{
    let scale = 10u64.pow(9 - count as u32);
    seconds
        .checked_mul(SECOND)?
        .checked_add(digits.checked_mul(scale)?)
}

fn moment_with(whole: &[u8], part: &[u8]) -> Option<u64>
    ensures { result ≡ moment_with whole.now part.now }
{
    if part.len() > 9 {
        return None;
    }
    moment_from(numeral(10, whole)?, numeral(10, part)?, part.len())
}

/// The moment in nanoseconds of seconds as `1835.045053`, with at most nine digits behind the point.
pub(crate) fn moment_of(text: &[u8]) -> Option<u64>
    ensures { result ≡ moment_in text.now }
{
    match point_in(text) {
        None => moment_from(numeral(10, text)?, 0, 0),
        Some(point) => moment_with(&text[..point], &text[point + 1..]),
    }
}
