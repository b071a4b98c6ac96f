//! Which rule a line puts to the test.

use crate::counts::TimerRule;
use kernel_rules::{Charge, Wake};
use timer_tasks::{Throttling, Waking};

/// The rule that a wake puts to the test.
pub(crate) fn rule_of_wake(waking: Waking) -> TimerRule {
    match waking {
        Waking::StaysThrottled => TimerRule::WakeThrottled,
        Waking::Waits => TimerRule::WakeWaits,
        Waking::Guessed | Waking::Sure | Waking::Tested(Wake::Renewed) => TimerRule::WakeRenewed,
        Waking::Tested(Wake::Kept) => TimerRule::WakeKept,
        Waking::Tested(Wake::Revised) => TimerRule::WakeRevised,
    }
}

/// The rule that a charge puts to the test.
pub(crate) fn rule_of_charge(charge: Charge) -> TimerRule {
    match charge {
        Charge::InFull => TimerRule::ChargeInFull,
        Charge::ByItsBandwidth => TimerRule::ChargeByBandwidth,
        Charge::ByWhatIsLeft => TimerRule::ChargeByWhatIsLeft,
    }
}

/// The rule that a start of a replenishment timer puts to the test.
pub(crate) fn rule_of_throttling(throttling: Throttling) -> TimerRule {
    match throttling {
        Throttling::Yields => TimerRule::Yielded,
        Throttling::Waits => TimerRule::WakeWaits,
        Throttling::UsedUp | Throttling::Untold => TimerRule::Throttled,
    }
}
