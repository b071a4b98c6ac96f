//! What each law compares.

ghost use Rattle.std.specs.Prelude.{◌≡◌};
ghost use Rattle.probe_findings.specs.inside.Compared.{ratio_compared, start_compared, wake_compared};

use crate::ratio_law::{greatest_ratio, is_ratio};
use crate::{Comparison, ExactValue, ProbedLine, Quantity, Subject};

/// A CPU's `max_bw` and `bw_ratio`.
#[derive(Clone, Copy, PartialEq, Eq, Hash)]
pub struct Ratio {
    pub cpu: u32,
    pub max_bw: u64,
    pub bw_ratio: u64,
}

/// Whether `bw_ratio` is that of `max_bw`, and `max_bw` a limit of the test of admissions; `limit` is the last that was shown.
pub fn compared_ratio(place: ProbedLine, ratio: Ratio, is_limit: bool, limit: u64) -> Comparison
    ensures { result ≡ ratio_compared place ratio.cpu ratio.max_bw ratio.bw_ratio is_limit limit }
{
    let rules = greatest_ratio(ratio.max_bw);
    let is_right = is_ratio(ratio.max_bw, ratio.bw_ratio);
    if is_right && !is_limit {
        Comparison {
            place,
            subject: Subject::Runqueue(ratio.cpu),
            quantity: Quantity::MaxBw,
            rules: ExactValue::Unsigned(limit),
            kernel: ExactValue::Unsigned(ratio.max_bw),
            is_equal: false,
        }
    } else {
        Comparison {
            place,
            subject: Subject::Runqueue(ratio.cpu),
            quantity: Quantity::BwRatio,
            rules: ExactValue::Unsigned(rules),
            kernel: ExactValue::Unsigned(ratio.bw_ratio),
            is_equal: is_right,
        }
    }
}

/// A wake on this CPU, whose clock is so many nanoseconds behind the least lag.
pub fn compared_wake(place: ProbedLine, cpu: u32, behind: i64, is_equal: bool) -> Comparison
    ensures { result ≡ wake_compared place cpu behind is_equal }
{
    Comparison {
        place,
        subject: Subject::Runqueue(cpu),
        quantity: Quantity::ClockLag,
        rules: ExactValue::AtMost(100_000),
        kernel: ExactValue::Signed(behind),
        is_equal,
    }
}

/// `this_bw` of the first line of a CPU.
pub fn compared_start(place: ProbedLine, cpu: u32, rules: u64, this_bw: u64) -> Comparison
    ensures { result ≡ start_compared place cpu rules this_bw }
{
    Comparison {
        place,
        subject: Subject::Runqueue(cpu),
        quantity: Quantity::ThisBw,
        rules: ExactValue::Unsigned(rules),
        kernel: ExactValue::Unsigned(this_bw),
        is_equal: rules == this_bw,
    }
}
