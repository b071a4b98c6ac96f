//! What a step says of its task.

use crate::book_steps::{Change, Step};
use grub_book::{Op, Reply, Server};
use grub_plan::{Answer, Ask};

/// How long the task ran, in moments, where a step charges a run, and else 0.
pub fn run_of(ask: Ask, answer: Answer) -> u32 {
    match (ask, answer) {
        (
            Ask::Call {
                op: Op::Charge { dt, .. },
                ..
            },
            Answer::Replied(Reply::Charged { .. }),
        ) => dt,
        _ => 0,
    }
}

/// What a step charges, in moments of budget, and where it charges nothing 0.
pub fn charge_in(ask: Ask, answer: Answer) -> u64 {
    match (ask, answer) {
        (
            Ask::Call {
                op: Op::Charge { .. },
                ..
            },
            Answer::Replied(Reply::Charged { dq, .. }),
        ) => dq,
        _ => 0,
    }
}

/// How often a charge recharged the budget.
pub fn recharges_in(answer: Answer) -> u32 {
    match answer {
        Answer::Replied(Reply::Charged { k, .. }) => k,
        _ => 0,
    }
}

/// The answer tells of a join.
pub fn is_joined(answer: Answer) -> bool {
    matches!(answer, Answer::Replied(Reply::Joined { .. }))
}

/// The answer tells of a wake.
pub fn is_woken(answer: Answer) -> bool {
    matches!(answer, Answer::Replied(Reply::Woken { .. }))
}

/// The answer tells that the task left a runqueue.
pub fn is_left(answer: Answer) -> bool {
    matches!(answer, Answer::Replied(Reply::Left { .. }))
}

/// The answer tells of a block before the 0-lag time.
pub fn is_waiting(answer: Answer) -> bool {
    matches!(answer, Answer::Replied(Reply::Waiting { .. }))
}

/// The answer tells of a block at the 0-lag time or after it.
pub fn is_asleep(answer: Answer) -> bool {
    matches!(answer, Answer::Replied(Reply::Asleep))
}

/// The answer tells that the 0-lag time came while the task waited.
pub fn is_retired(answer: Answer) -> bool {
    matches!(answer, Answer::Replied(Reply::Retired))
}

/// The task's server before a step that changes one, and else a server of nothing.
pub fn server_before(change: Option<Change>) -> Server {
    match change {
        Some(change) => change.server,
        None => Server { q: 0, d: 0 },
    }
}

/// The answer tells of a join or a wake that found this server, and left it.
pub fn is_kept(server: Server, answer: Answer) -> bool {
    match answer {
        Answer::Replied(Reply::Joined { q, d } | Reply::Woken { q, d }) => {
            q == server.q && d == server.d
        }
        _ => false,
    }
}

fn lateness(d: u32, m: u32, answer: Answer) -> u32 {
    match answer {
        Answer::Replied(Reply::Waiting { .. } | Reply::Asleep) => m.saturating_sub(d),
        _ => 0,
    }
}

/// How long after the deadline a block came, and of every other step 0.
pub fn lateness_in(x: &Step) -> u32 {
    lateness(
        server_before(x.change).d,
        x.told.entry.m,
        x.told.entry.answer,
    )
}

/// The least budget so far, with this answer's.
pub fn least_after(least: u32, answer: Answer) -> u32 {
    match answer {
        Answer::Replied(
            Reply::Joined { q, .. } | Reply::Woken { q, .. } | Reply::Charged { q, .. },
        ) => least.min(q),
        _ => least,
    }
}

fn is_refusing(reply: Reply) -> bool {
    match reply {
        Reply::Joined { .. }
        | Reply::Woken { .. }
        | Reply::Waiting { .. }
        | Reply::Asleep
        | Reply::Left { .. }
        | Reply::Retired
        | Reply::Ended
        | Reply::Charged { .. }
        | Reply::Retuned => false,
        _ => true,
    }
}

/// The answer refuses; after a wake that finds the task elsewhere it moves, and that counts as none.
pub fn is_refused(ask: Ask, answer: Answer) -> bool {
    match (ask, answer) {
        (
            Ask::Call {
                op: Op::Wake { .. },
                ..
            },
            Answer::Replied(Reply::Elsewhere(_)),
        ) => false,
        (_, Answer::Replied(reply)) => is_refusing(reply),
        _ => false,
    }
}
