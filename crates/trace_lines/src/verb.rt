//! Which event a line is of.

ghost use Rattle.std.specs.Prelude.{◌≡◌};
ghost use Rattle.trace_lines.specs.Verbs.{bare, is_call, is_return, is_waking, policy_verb, probe_verb, timer_verb, verb_named, verb_of};

use trace_fields::{after, before_end, begins};
use trace_probes::{ProbeEvent, event_named};

/// The event of a line.
#[derive(Clone, Copy)]
pub enum Verb {
    /// sched_wakeup.
    Wake,

    /// sched_wakeup_new: its thread begins.
    WakeNew,

    /// sched_migrate_task.
    Migrate,

    /// sched_stat_runtime.
    Run,

    /// sched_switch.
    Switch,

    /// hrtimer_start.
    Start,

    /// hrtimer_cancel.
    Cancel,

    /// hrtimer_expire_entry.
    Expire,

    /// The call of sched_setattr(2) or sched_setscheduler(2).
    Call,

    /// Its return.
    Return,
    Probe(ProbeEvent),
}

/// An event's name without its group, as `perf script` writes it.
fn bare(name: &[u8]) -> &[u8]
    ensures { result.now ≡ bare name.now }
{
    match after(b"sched:", name) {
        Some(rest) => rest,
        None => match after(b"timer:", name) {
            Some(rest) => rest,
            None => match after(b"syscalls:", name) {
                Some(rest) => rest,
                None => match after(b"grub:", name) {
                    Some(rest) => rest,
                    None => name,
                },
            },
        },
    }
}

fn probe_verb(name: &[u8]) -> Option<Verb>
    ensures { result ≡ probe_verb name.now }
{
    Some(Verb::Probe(event_named(name)?))
}

fn policy_verb(name: &[u8]) -> Option<Verb>
    ensures { result ≡ policy_verb name.now }
{
    if name == b"sys_enter_sched_setattr".as_slice()
        || name == b"sys_enter_sched_setscheduler".as_slice()
    {
        Some(Verb::Call)
    } else if name == b"sys_exit_sched_setattr".as_slice()
        || name == b"sys_exit_sched_setscheduler".as_slice()
    {
        Some(Verb::Return)
    } else {
        probe_verb(name)
    }
}

fn timer_verb(name: &[u8]) -> Option<Verb>
    ensures { result ≡ timer_verb name.now }
{
    if name == b"hrtimer_start".as_slice() {
        Some(Verb::Start)
    } else if name == b"hrtimer_cancel".as_slice() {
        Some(Verb::Cancel)
    } else if name == b"hrtimer_expire_entry".as_slice() {
        Some(Verb::Expire)
    } else {
        policy_verb(name)
    }
}

fn verb_named(name: &[u8]) -> Option<Verb>
    ensures { result ≡ verb_named name.now }
{
    if name == b"sched_wakeup".as_slice() {
        Some(Verb::Wake)
    } else if name == b"sched_wakeup_new".as_slice() {
        Some(Verb::WakeNew)
    } else if name == b"sched_migrate_task".as_slice() {
        Some(Verb::Migrate)
    } else if name == b"sched_stat_runtime".as_slice() {
        Some(Verb::Run)
    } else if name == b"sched_switch".as_slice() {
        Some(Verb::Switch)
    } else {
        timer_verb(name)
    }
}

/// Whether a word begins a call, as tracefs writes it.
fn is_call(word: &[u8]) -> bool
    ensures { result ≡ is_call word.now }
{
    begins(word, b"sys_sched_setattr(") || begins(word, b"sys_sched_setscheduler(")
}

/// Whether a word begins a return, as tracefs writes it.
fn is_return(word: &[u8]) -> bool
    ensures { result ≡ is_return word.now }
{
    word == b"sys_sched_setattr".as_slice() || word == b"sys_sched_setscheduler".as_slice()
}

/// The event that a line's first word behind its moment names.
pub(crate) fn verb_of(word: &[u8]) -> Option<Verb>
    ensures { result ≡ verb_of word.now }
{
    if is_call(word) {
        Some(Verb::Call)
    } else if is_return(word) {
        Some(Verb::Return)
    } else {
        verb_named(bare(before_end(b":", word)?))
    }
}

/// Whether a line's first word behind its moment names sched_waking.
pub(crate) fn is_waking(word: &[u8]) -> bool
    ensures { result ≡ is_waking word.now }
{
    match before_end(b":", word) {
        None => false,
        Some(name) => bare(name) == b"sched_waking".as_slice(),
    }
}
