//! The rule behind a deviation, as a line of arithmetic with the numbers that went into it.

use crate::writing::put;
use kernel_rules::{ChargeLaw, ratio};
use probe_findings::ExactRule;
use probe_run::LastCharge;
use std::alloc::{AllocError, Global};
use trace_data::{Enqueued, Probe};

/// What is known of the rule that changed a value last.
#[derive(Clone, Copy)]
pub struct RuleNumbers {
    pub rule: ExactRule,
    pub law: ChargeLaw,

    /// The line at which it did, and the last charge of the entity.
    pub cause: Option<Probe>,
    pub charge: Option<LastCharge>,
}

/// Appends the rule with its numbers, where they are known.
pub fn put_arithmetic(
    alloc: Global,
    out: &mut Vec<u8>,
    numbers: RuleNumbers,
) -> Result<(), AllocError> {
    if let Some(charge) = numbers.charge
        && is_of_charge(numbers.rule)
    {
        return put_charge(alloc, out, numbers.law, numbers.rule, &charge);
    }
    match numbers.cause {
        Some(Probe::Enqueued(line)) => put_enqueue(alloc, out, numbers.rule, &line),
        _ => put_zero_lag(out, numbers.rule),
    }
}

/// Whether a rule is about what a run takes from a budget.
fn is_of_charge(rule: ExactRule) -> bool {
    matches!(
        rule,
        ExactRule::ChargeInFull
            | ExactRule::ChargeByItsBandwidth
            | ExactRule::ChargeByWhatIsLeft
            | ExactRule::Throttled
            | ExactRule::Yielded
    )
}

fn put_zero_lag(out: &mut Vec<u8>, rule: ExactRule) -> Result<(), AllocError> {
    match rule {
        ExactRule::ZeroLagArmed | ExactRule::ZeroLagPast => put(
            out,
            "  the rule: 0-lag time = deadline - runtime * dl_period / dl_runtime - the runqueue's clock\n",
        ),
        _ => Ok(()),
    }
}

/// Appends a charge: its numbers, and what it took.
fn put_charge(
    alloc: Global,
    out: &mut Vec<u8>,
    law: ChargeLaw,
    rule: ExactRule,
    charge: &LastCharge,
) -> Result<(), AllocError> {
    let line = charge.line;
    let (nanos, bw) = (charge.nanos, charge.dl_bw);
    let (this, running, extra) = (charge.this_bw, charge.running_bw, charge.extra_bw);
    let (max, scale) = (charge.max_bw, charge.bw_ratio);
    let text = format!(in alloc;
        "  the charge at line {line}: {nanos} ns, this_bw {this}, running_bw {running}, extra_bw {extra}, max_bw {max}, bw_ratio {scale}, own bandwidth {bw}\n"
    )?;
    put(out, text.as_str())?;
    put_cost(alloc, out, law, rule, charge)
}

/// Appends what a charge took, as the kernel reckons it.
fn put_cost(
    alloc: Global,
    out: &mut Vec<u8>,
    law: ChargeLaw,
    rule: ExactRule,
    charge: &LastCharge,
) -> Result<(), AllocError> {
    let (nanos, bw, cost) = (charge.nanos, charge.dl_bw, charge.cost);
    let (this, running, extra) = (charge.this_bw, charge.running_bw, charge.extra_bw);
    let (max, scale) = (charge.max_bw, charge.bw_ratio);
    let text = match (law, rule) {
        (ChargeLaw::LinuxFrom65, ExactRule::ChargeByWhatIsLeft) => format!(in alloc;
            "  the rule: {nanos} * ((({max} - ({this} - {running}) - {extra}) * {scale}) >> 8) >> 20 = {cost}\n"
        )?,
        (ChargeLaw::LinuxFrom65, ExactRule::ChargeByItsBandwidth) => format!(in alloc;
            "  the rule: {this} - {running} + {extra} is above {max} - {bw}, so {nanos} * (({bw} * {scale}) >> 8) >> 20 = {cost}\n"
        )?,
        (ChargeLaw::LinuxBefore65, ExactRule::ChargeByWhatIsLeft) => format!(in alloc;
            "  the rule: {nanos} * (1048576 - ({this} - {running}) - {extra}) >> 20 = {cost}\n"
        )?,
        (ChargeLaw::LinuxBefore65, ExactRule::ChargeByItsBandwidth) => format!(in alloc;
            "  the rule: {this} - {running} + {extra} is above 1048576 - (({bw} * {scale}) >> 8), so {nanos} * (({bw} * {scale}) >> 8) >> 20 = {cost}\n"
        )?,
        _ => format!(in alloc; "  the rule: {nanos} ns took {cost} from the budget\n")?,
    };
    put(out, text.as_str())
}

/// Appends what an enqueue does to budget and deadline, or to the sums.
fn put_enqueue(
    alloc: Global,
    out: &mut Vec<u8>,
    rule: ExactRule,
    line: &Enqueued,
) -> Result<(), AllocError> {
    match rule {
        ExactRule::WakeKept | ExactRule::WakeNewPeriod | ExactRule::WakeRevised => {
            put_wake(alloc, out, rule, line)
        }
        ExactRule::Replenished | ExactRule::ReplenishedAtOnce => put_refill(alloc, out, line),
        ExactRule::MovedIn | ExactRule::Restored | ExactRule::WakeAfterZeroLag => {
            let (runtime, period) = (line.parameters.dl_runtime, line.parameters.dl_period);
            let bw = ratio(runtime, period);
            let text = format!(in alloc;
                "  the rule: its bandwidth is ({runtime} << 20) / {period} = {bw}\n"
            )?;
            put(out, text.as_str())
        }
        _ => Ok(()),
    }
}

/// Appends the test of a wake (`dl_entity_overflow`), and what follows from it.
fn put_wake(
    alloc: Global,
    out: &mut Vec<u8>,
    rule: ExactRule,
    line: &Enqueued,
) -> Result<(), AllocError> {
    let (runtime, deadline) = (line.budget.runtime, line.budget.deadline);
    let (dl_runtime, dl_deadline) = (line.parameters.dl_runtime, line.parameters.dl_deadline);
    let clock = line.clock;
    let text = format!(in alloc;
        "  the wake at clock {clock}: runtime {runtime}, deadline {deadline}, dl_runtime {dl_runtime}, dl_deadline {dl_deadline}\n"
    )?;
    put(out, text.as_str())?;
    let text = match rule {
        ExactRule::WakeKept => format!(in alloc;
            "  the rule: kept, since (({deadline} - {clock}) >> 10) * ({dl_runtime} >> 10) is not below ({dl_deadline} >> 10) * ({runtime} >> 10)\n"
        )?,
        ExactRule::WakeRevised => format!(in alloc;
            "  the rule: runtime = ((({dl_runtime} << 20) / {dl_deadline}) * ({deadline} - {clock})) >> 20\n"
        )?,
        _ => {
            let next = clock.wrapping_add(dl_deadline);
            format!(in alloc;
                "  the rule: deadline = {clock} + {dl_deadline} = {next}, runtime = {dl_runtime}\n"
            )?
        }
    };
    put(out, text.as_str())
}

/// Appends a replenishment: a yield gives up what is left.
fn put_refill(alloc: Global, out: &mut Vec<u8>, line: &Enqueued) -> Result<(), AllocError> {
    let (shown, deadline) = (line.budget.runtime, line.budget.deadline);
    let (dl_runtime, dl_period) = (line.parameters.dl_runtime, line.parameters.dl_period);
    let gives_up = line.budget.is_yielded && shown > 0;
    let runtime = if gives_up { 0 } else { shown };
    if gives_up {
        let text = format!(in alloc; "  the yield gives up {shown} of runtime\n")?;
        put(out, text.as_str())?;
    }
    let text = format!(in alloc;
        "  the rule: runtime {runtime} + {dl_runtime} and deadline {deadline} + {dl_period}, until the runtime is above 0\n"
    )?;
    put(out, text.as_str())
}
