//! Names of laws, of lines, and of known faults.

ghost use Rattle.std.specs.Prelude.{◌≡◌, position};
ghost use Rattle.law_verdict.specs.Names.{asked_in, is_name_of, law_named, law_word};

use law_findings::{AskedLaws, LAWS, Law, LineKind, Sign, Standing, TimerKind};
use trace_lines::first_part;

/// The name of a law, as options and verdicts have it.
pub fn law_name(law: Law) -> &'static str
    ensures { result.now ≡ law_word law }
{
    match law {
        Law::Progress => "progress",
        Law::Expiry => "expiry",
        Law::Firing => "firing",
        Law::ZeroLag => "0-lag",
        Law::Budget => "budget",
        Law::Total => "total",
        Law::Pick => "pick",
        Law::Run => "run",
        Law::Server => "server",
    }
}

/// The laws that a word of names asks, which are parted by commas; `none` asks none. Nothing where a name is no law's.
pub fn asked_of(word: &str) -> Option<AskedLaws>
    ensures { result ≡ asked_in word.now }
{
    let mut asked = AskedLaws::none();
    if word == "none" {
        return Some(asked);
    }
    let mut left = Some(word.as_bytes());
    while let Some(text) = left {
        let (name, rest) = first_part(text);
        asked = asked.with(law_of(name)?);
        left = rest;
    }
    Some(asked)
}

/// The law of this name.
fn law_of(name: &[u8]) -> Option<Law>
    ensures { result ≡ law_named name.now }
{
    match place_of(name) {
        Some(place) => LAWS.get(place).copied(),
        None => None,
    }
}

/// Where the law of this name stands among all.
fn place_of(name: &[u8]) -> Option<usize>
    ensures { result ≡ position (is_name_of name.now) LAWS }
{
    LAWS.iter().position(|law| is_name_of(name, *law))
}

fn is_name_of(name: &[u8], law: Law) -> bool
    ensures { result ≡ is_name_of name.now law }
{
    law_name(law).as_bytes() == name
}

/// The event of a line.
pub fn line_name(kind: LineKind) -> &'static str {
    match kind {
        LineKind::Enqueue => "enq",
        LineKind::Update => "upd",
        LineKind::Dequeue => "deq",
        LineKind::Leave => "sfr",
        LineKind::Admit => "adm",
        LineKind::ZeroLagFires => "ina",
        LineKind::ReplenishFires => "dlt",
        LineKind::Arm => "hst",
        LineKind::Switch => "sched_switch",
        LineKind::ServerStart => "ede",
        LineKind::ServerPick => "pck",
        LineKind::ServerStop => "dls",
        LineKind::ServerIdle => "idl",
        LineKind::TimerStarts => "hrtimer_start",
        LineKind::TimerExpires => "hrtimer_expire_entry",
    }
}

pub(crate) fn timer_name(kind: TimerKind) -> &'static str {
    match kind {
        TimerKind::ZeroLag => "0-lag timer",
        TimerKind::Replenish => "replenishment timer",
    }
}

pub(crate) fn standing_name(standing: Standing) -> &'static str {
    match standing {
        Standing::Away => "was not in the class",
        Standing::Blocked => "was blocked",
        Standing::Queued => "was queued",
    }
}

/// A known fault, and its heading in KERNEL.
pub fn fault_name(sign: Sign) -> &'static str {
    match sign {
        Sign::LeftThrottled => {
            "a throttled task that leaves the class and comes back (KERNEL, \"Throttled for ever\")"
        }
        Sign::BoostEnded => {
            "a throttled task whose boost ends while it is blocked (KERNEL, \"Throttled for ever\")"
        }
        Sign::ProductWraps => {
            "the product of budget and period wraps (KERNEL, \"A 0-lag time that wraps\")"
        }
        Sign::LeftAsleep => {
            "a task that is put out of the class while it sleeps (KERNEL, under that heading)"
        }
        Sign::ServersTakenTwice | Sign::SharesTakenAgain => {
            "shares are taken again (KERNEL, \"Hotplug and partitions\")"
        }
        Sign::LowAtStart => {
            "extra_bw was too low before the record (KERNEL, \"Hotplug and partitions\")"
        }
        Sign::BoostNotPicked => {
            "a throttled task that a boost replenishes (KERNEL, \"A boost that nothing runs\")"
        }
    }
}
