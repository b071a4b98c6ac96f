//! Which rules a record put to the test.

/// A rule.
#[derive(Clone, Copy, PartialEq, Eq)]
pub enum TimerRule {
    ChargeInFull,
    ChargeByBandwidth,
    ChargeByWhatIsLeft,

    /// A wake before the 0-lag time, which keeps budget and deadline.
    WakeKept,
    WakeRevised,
    WakeRenewed,
    WakeWaits,
    WakeThrottled,
    Replenished,
    ReplenishedAtOnce,
    Throttled,
    Yielded,
    Admitted,
    Changed,
    Left,
    Ended,
    Moved,
    ServerStarted,
    ServerStopped,
    Edge,
    Gap,
}

/// How often each rule was put to the test.
#[derive(Clone, Copy)]
pub struct TimerRuleCounts {
    pub in_full: u64,
    pub by_bandwidth: u64,
    pub by_what_is_left: u64,
    pub kept: u64,
    pub revised: u64,
    pub renewed: u64,
    pub waits: u64,
    pub woken_throttled: u64,
    pub replenished: u64,
    pub replenished_at_once: u64,
    pub throttled: u64,
    pub yielded: u64,
    pub admitted: u64,
    pub changed: u64,
    pub left: u64,
    pub ended: u64,
    pub moved: u64,
    pub server_starts: u64,
    pub server_stops: u64,
    pub edges: u64,
    pub gaps: u64,
}

impl TimerRuleCounts {
    pub fn new() -> TimerRuleCounts {
        TimerRuleCounts {
            in_full: 0,
            by_bandwidth: 0,
            by_what_is_left: 0,
            kept: 0,
            revised: 0,
            renewed: 0,
            waits: 0,
            woken_throttled: 0,
            replenished: 0,
            replenished_at_once: 0,
            throttled: 0,
            yielded: 0,
            admitted: 0,
            changed: 0,
            left: 0,
            ended: 0,
            moved: 0,
            server_starts: 0,
            server_stops: 0,
            edges: 0,
            gaps: 0,
        }
    }

    /// One more of a rule.
    pub fn add(&mut self, rule: TimerRule) {
        let count = match rule {
            TimerRule::ChargeInFull => &mut self.in_full,
            TimerRule::ChargeByBandwidth => &mut self.by_bandwidth,
            TimerRule::ChargeByWhatIsLeft => &mut self.by_what_is_left,
            TimerRule::WakeKept => &mut self.kept,
            TimerRule::WakeRevised => &mut self.revised,
            TimerRule::WakeRenewed => &mut self.renewed,
            TimerRule::WakeWaits => &mut self.waits,
            TimerRule::WakeThrottled => &mut self.woken_throttled,
            TimerRule::Replenished => &mut self.replenished,
            TimerRule::ReplenishedAtOnce => &mut self.replenished_at_once,
            TimerRule::Throttled => &mut self.throttled,
            TimerRule::Yielded => &mut self.yielded,
            TimerRule::Admitted => &mut self.admitted,
            TimerRule::Changed => &mut self.changed,
            TimerRule::Left => &mut self.left,
            TimerRule::Ended => &mut self.ended,
            TimerRule::Moved => &mut self.moved,
            TimerRule::ServerStarted => &mut self.server_starts,
            TimerRule::ServerStopped => &mut self.server_stops,
            TimerRule::Edge => &mut self.edges,
            TimerRule::Gap => &mut self.gaps,
        };
        *count = count.saturating_add(1);
    }
}
