//! What breaks a law, in words.

use crate::names::{fault_name, line_name, standing_name, timer_name};
use crate::writing::{TaskName, put, put_seconds, put_signed_span, put_span, put_whose};
use law_findings::{Breach, Finding, FiredTimer, Whose};
use std::alloc::{AllocError, Global};
use text_bytes::put_number;

/// Appends where a law is broken, and by what.
pub(crate) fn put_breach(
    alloc: Global,
    out: &mut Vec<u8>,
    breach: &Breach,
    names: &[TaskName],
) -> Result<(), AllocError> {
    put_number(out, b"line ", breach.place.line)?;
    put(out, ", ")?;
    put_seconds(alloc, out, breach.place.at)?;
    put(out, ", ")?;
    put(out, line_name(breach.place.kind))?;
    put(out, " of ")?;
    put_whose(alloc, out, breach.whose, names)?;
    put_number(out, b" on CPU ", u64::from(breach.place.cpu))?;
    put(out, ": ")?;
    put_finding(alloc, out, breach)
}

/// Appends what was found.
pub fn put_finding(alloc: Global, out: &mut Vec<u8>, breach: &Breach) -> Result<(), AllocError> {
    match breach.finding {
        Finding::NoTimer { .. } => put(
            out,
            "it is queued and throttled, and no replenishment timer is armed",
        ),
        Finding::NotArmed => put(
            out,
            "the charge throttles it, and no replenishment timer is armed",
        ),
        Finding::OtherMoment { period, moment } => {
            put(out, "its replenishment timer is armed for ")?;
            put_seconds(alloc, out, moment)?;
            put(out, ", and its next period begins at ")?;
            put_seconds(alloc, out, period)
        }
        Finding::Early {
            timer,
            expiry,
            fired,
        } => {
            put(out, owned_by(breach.whose))?;
            put(out, timer_name(timer))?;
            put(out, " fires early by ")?;
            put_span(alloc, out, expiry.saturating_sub(fired))
        }
        Finding::Awake { woke } => {
            put_number(out, b"its 0-lag timer fires, though it woke at line ", woke)
        }
        Finding::NeverFired { timer, expiry, .. } => {
            put(out, owned_by(breach.whose))?;
            put(out, timer_name(timer))?;
            put(out, ", armed for ")?;
            put_seconds(alloc, out, expiry)?;
            put(out, ", does not fire")
        }
        Finding::OtherZeroLag { exact, armed } => {
            put(out, "its 0-lag timer is armed for ")?;
            put_signed_span(alloc, out, armed)?;
            put(out, " ahead, and its 0-lag time is ")?;
            put_signed_span(alloc, out, exact)?;
            put(out, " ahead")
        }
        Finding::NotAwaited { ahead } => {
            put(out, "its 0-lag time is ")?;
            put_signed_span(alloc, out, ahead)?;
            put(out, " ahead, and no timer is armed for it")
        }
        Finding::NoBudget { budget } => {
            let text = format!(in alloc; "it is not throttled, with a budget of {budget} ns")?;
            put(out, text.as_str())
        }
        Finding::TooMuchBudget { budget, dl_runtime } => {
            let text = format!(in alloc;
                "its budget is {budget} ns, above its runtime of {dl_runtime} ns"
            )?;
            put(out, text.as_str())
        }
        _ => put_other_finding(alloc, out, breach),
    }
}

/// How a timer is spoken of: it is a task's, or it is named itself.
fn owned_by(whose: Whose) -> &'static str {
    match whose {
        Whose::Timer { .. } => "this ",
        _ => "its ",
    }
}

/// What was found of picks, runs, sums and servers.
fn put_other_finding(alloc: Global, out: &mut Vec<u8>, breach: &Breach) -> Result<(), AllocError> {
    match breach.finding {
        Finding::PutOnThrottled => put(out, "it is throttled, and is put on"),
        Finding::LaterDeadline {
            earlier,
            deadline,
            picked,
        } => {
            let text = format!(in alloc;
                "its deadline is {picked}, and it is put on before pid {earlier} with deadline {deadline}"
            )?;
            put(out, text.as_str())
        }
        Finding::LowerRuns { pid, nanos, ticks } => {
            put_number(out, b"it can run, and pid ", pid)?;
            put(out, " of a lower class runs for ")?;
            put_span(alloc, out, nanos)?;
            put_number(out, b" and ", ticks)?;
            put(out, " ticks")
        }
        Finding::ChargedTwice { ends, begins } => {
            let text = format!(in alloc;
                "it is charged from {begins} on, and time was charged up to {ends}"
            )?;
            put(out, text.as_str())
        }
        Finding::NotCharged { ends, begins } => {
            let text = format!(in alloc; "it ran from {ends} to {begins} without a charge")?;
            put(out, text.as_str())
        }
        Finding::NotAtSwitch { switch, begins } => {
            let text = format!(in alloc;
                "its first charge begins at {begins}, and it was put on at {switch}"
            )?;
            put(out, text.as_str())
        }
        Finding::OtherTotal { admitted, total_bw } => {
            let text = format!(in alloc; "total_bw is {total_bw}, and {admitted} is admitted")?;
            put(out, text.as_str())
        }
        Finding::NegativeExtra { extra_bw } => {
            let text = format!(in alloc;
                "extra_bw is {extra_bw}, so what is left of a processor is below 0"
            )?;
            put(out, text.as_str())
        }
        Finding::OtherCharge {
            nanos,
            before,
            after,
        } => {
            let text = format!(in alloc;
                "a span of {nanos} ns takes its budget from {before} to {after} ns"
            )?;
            put(out, text.as_str())
        }
        Finding::FarDeadline { ahead } => {
            put(out, "its deadline is ")?;
            put_span(alloc, out, ahead)?;
            put(out, " ahead, more than a period and a runtime")
        }
        _ => Ok(()),
    }
}

/// Appends a line of evidence, where there is some.
pub(crate) fn put_evidence(out: &mut Vec<u8>, breach: &Breach) -> Result<(), AllocError> {
    let start = out.len();
    put(out, "    ")?;
    let has_more = put_traces(out, breach)?;
    if let Some(sign) = breach.sign {
        put(out, if has_more { "; known: " } else { "known: " })?;
        put(out, fault_name(sign))?;
    } else if !has_more {
        out.truncate(start);
        return Ok(());
    }
    put(out, "\n")
}

/// Appends what else lines show of a breach; whether there is any.
pub fn put_traces(out: &mut Vec<u8>, breach: &Breach) -> Result<bool, AllocError> {
    match breach.finding {
        Finding::NoTimer { fired: Some(fired) } => {
            put_fired(out, fired)?;
            Ok(true)
        }
        Finding::NeverFired {
            again: Some(again),
            ..
        } => {
            put_number(out, b"it is armed again at line ", again)?;
            Ok(true)
        }
        Finding::NeverFired { again: None, .. } => {
            put(out, "the record ends more than 10 ms later")?;
            Ok(true)
        }
        _ => Ok(false),
    }
}

fn put_fired(out: &mut Vec<u8>, fired: FiredTimer) -> Result<(), AllocError> {
    put_number(out, b"its timer fired at line ", fired.line)?;
    put(out, ", while it ")?;
    put(out, standing_name(fired.standing))
}
