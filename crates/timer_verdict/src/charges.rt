//! The charges before the first deviation, and what the kernel's moment means, in words.

use crate::numbers::is_of;
use crate::writing::{put, put_rate, put_signed};
use kernel_rules::{Charge, RECLAIM, has};
use std::alloc::{AllocError, Global};
use text_bytes::put_number;
use timer_play::Charged;
use timer_tasks::{Observation, TimerKind};
use trace_data::Parameters;

/// Appends the charges since the wake of the task, with the rate and the three sums of each.
pub(crate) fn put_charges(
    alloc: Global,
    out: &mut Vec<u8>,
    charges: &[Charged],
) -> Result<(), AllocError> {
    for charged in charges {
        put_charge(alloc, out, charged)?;
    }
    Ok(())
}

fn put_charge(alloc: Global, out: &mut Vec<u8>, charged: &Charged) -> Result<(), AllocError> {
    put_number(out, b"  charged at line ", charged.line)?;
    put_number(out, b": ", charged.cost)?;
    put_number(out, b" of ", charged.nanos)?;
    put(out, b" ns (")?;
    put_rate(alloc, out, charged.cost.cast_signed(), charged.nanos)?;
    put_number(out, charge_phrase(charged.charge), u64::from(charged.cpu))?;
    put_charge_sums(alloc, out, charged)
}

fn charge_phrase(charge: Charge) -> &'static [u8] {
    match charge {
        Charge::InFull => b", in full) on CPU ",
        Charge::ByItsBandwidth => b", by its bandwidth) on CPU ",
        Charge::ByWhatIsLeft => b", by what is left) on CPU ",
    }
}

fn put_charge_sums(alloc: Global, out: &mut Vec<u8>, charged: &Charged) -> Result<(), AllocError> {
    put_number(out, b": this ", charged.sums.this_bw)?;
    put_number(out, b", running ", charged.sums.running_bw)?;
    put(out, b", extra ")?;
    put_signed(alloc, out, charged.sums.extra_bw.cast_signed())?;
    put(out, b"\n")
}

/// What a task ran since its wake.
fn executed(charges: &[Charged]) -> u64 {
    let mut sum = 0u64;
    for charged in charges {
        sum = sum.saturating_add(charged.nanos);
    }
    sum
}

/// What was charged since its wake.
fn charged_sum(charges: &[Charged]) -> u64 {
    let mut sum = 0u64;
    for charged in charges {
        sum = sum.saturating_add(charged.cost);
    }
    sum
}

/// By how much the kernel's charges are less than the rules', as its 0-lag timer tells.
fn less_charged(first: &Observation, parameters: Parameters) -> i64 {
    let work = i128::from(first.difference) * i128::from(parameters.dl_runtime);
    let period = i128::from(parameters.dl_period);
    if period == 0 {
        return 0;
    }
    let budget = work / period;
    budget.clamp(i128::from(i64::MIN), i128::from(i64::MAX)) as i64
}

/// Appends what the kernel's 0-lag time means: how much it charged.
pub(crate) fn put_implied(
    alloc: Global,
    out: &mut Vec<u8>,
    first: &Observation,
    parameters: Option<Parameters>,
    charges: &[Charged],
) -> Result<(), AllocError> {
    let Some(parameters) = parameters else {
        return Ok(());
    };
    if !is_of(TimerKind::Block, first) || first.kernel.is_none() || charges.is_empty() {
        return Ok(());
    }
    let executed = executed(charges);
    let by_kernel = charged_sum(charges)
        .cast_signed()
        .saturating_sub(less_charged(first, parameters));
    put_number(out, b"  since its wake it ran ", executed)?;
    put(out, b" ns; the kernel's moment means a charge of ")?;
    put_signed(alloc, out, by_kernel)?;
    put(out, b" ns (")?;
    put_rate(alloc, out, by_kernel, executed)?;
    put(out, b")\n")?;
    put(
        out,
        rate_hint(by_kernel, executed, has(parameters.flags, RECLAIM)),
    )
}

/// What a rate means for the task's flag: in full with the flag, or less without it.
fn rate_hint(charged: i64, executed: u64, reclaims: bool) -> &'static [u8] {
    let is_full = is_full_rate(charged, executed);
    if reclaims && is_full {
        b"  the kernel charged it in full: it may lack SCHED_FLAG_RECLAIM (`,norec` of --task)\n"
    } else if !reclaims && !is_full {
        b"  the kernel charged less than in full: it may have SCHED_FLAG_RECLAIM, or its CPU runs slower than at full speed\n"
    } else {
        b""
    }
}

/// Whether a charge is all of a run, but for half a percent.
fn is_full_rate(charged: i64, executed: u64) -> bool {
    let charged = i128::from(charged) * 200;
    let executed = i128::from(executed);
    charged >= executed * 199 && charged <= executed * 201
}
