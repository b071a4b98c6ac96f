//! What breaks a law, in numbers.

use crate::words::number_or_null;
use law_findings::{Finding, TimerKind};
use serde_json::{Value, json};
use std::alloc::{AllocError, Global};

fn timer_word(timer: TimerKind) -> &'static str {
    match timer {
        TimerKind::ZeroLag => "inactive_task_timer",
        TimerKind::Replenish => "dl_task_timer",
    }
}

/// The numbers of a finding, moments and spans in nanoseconds; null where it has none.
pub(crate) fn values_of(alloc: Global, finding: Finding) -> Result<Value, AllocError> {
    match finding {
        Finding::NoTimer { fired: Some(fired) } => json!(in alloc; {"fired_line": fired.line}),
        Finding::NoTimer { fired: None } | Finding::NotArmed | Finding::PutOnThrottled => {
            Ok(Value::Null)
        }
        Finding::OtherMoment { period, moment } => {
            json!(in alloc; {"period": period, "moment": moment})
        }
        Finding::Early {
            timer,
            expiry,
            fired,
        } => json!(in alloc; {"timer": timer_word(timer), "expiry": expiry, "fired": fired}),
        Finding::Awake { woke } => json!(in alloc; {"woke_line": woke}),
        Finding::NeverFired {
            timer,
            expiry,
            again,
        } => json!(in alloc; {
            "timer": timer_word(timer),
            "expiry": expiry,
            "again_line": number_or_null(again)
        }),
        Finding::OtherZeroLag { exact, armed } => json!(in alloc; {"exact": exact, "armed": armed}),
        Finding::NotAwaited { ahead } => json!(in alloc; {"ahead": ahead}),
        Finding::NoBudget { budget } => json!(in alloc; {"budget": budget}),
        Finding::TooMuchBudget { budget, dl_runtime } => {
            json!(in alloc; {"budget": budget, "dl_runtime": dl_runtime})
        }
        _ => values_of_others(alloc, finding),
    }
}

/// The numbers of a finding of picks, runs, sums and servers.
fn values_of_others(alloc: Global, finding: Finding) -> Result<Value, AllocError> {
    match finding {
        Finding::LaterDeadline {
            earlier,
            deadline,
            picked,
        } => json!(in alloc; {"earlier_pid": earlier, "deadline": deadline, "picked": picked}),
        Finding::LowerRuns { pid, nanos, ticks } => {
            json!(in alloc; {"lower_pid": pid, "span": nanos, "ticks": ticks})
        }
        Finding::ChargedTwice { ends, begins } | Finding::NotCharged { ends, begins } => {
            json!(in alloc; {"ends": ends, "begins": begins})
        }
        Finding::NotAtSwitch { switch, begins } => {
            json!(in alloc; {"switch": switch, "begins": begins})
        }
        Finding::OtherTotal { admitted, total_bw } => {
            json!(in alloc; {"admitted": admitted, "total_bw": total_bw})
        }
        Finding::NegativeExtra { extra_bw } => json!(in alloc; {"extra_bw": extra_bw}),
        Finding::OtherCharge {
            nanos,
            before,
            after,
        } => json!(in alloc; {"span": nanos, "before": before, "after": after}),
        Finding::FarDeadline { ahead } => json!(in alloc; {"ahead": ahead}),
        _ => Ok(Value::Null),
    }
}
