//! How a task stands, by the facts so far.

use convert_facts::What;
use trace_data::Stop;

/// How a task stands.
#[derive(Clone, Copy, Debug, PartialEq, Eq)]
pub enum Standing {
    /// It has neither woken nor blocked.
    Unseen,

    /// It blocked, and did not wake since.
    Asleep,

    /// It woke, and did not block since. `ran` tells whether it ran since that wake; `rest` are the nanoseconds, below
    /// a microsecond, that its runs left over.
    Awake { runqueue: u32, ran: bool, rest: u16 },
}

/// How long a task ran, where so much was left over: whole microseconds, and the nanoseconds that are left.
pub(crate) fn whole_micros(rest: u16, nanos: u64) -> (u64, u16) {
    let below = u64::from(rest) + nanos % 1000;
    (nanos / 1000 + below / 1000, (below % 1000) as u16)
}

impl Standing {
    /// How a task that stands so stands after what a fact tells.
    pub fn after(self, what: What) -> Standing {
        match (what, self) {
            (What::Wakes { cpu }, Standing::Unseen | Standing::Asleep) => Standing::Awake {
                runqueue: cpu,
                ran: false,
                rest: 0,
            },
            (What::Sent { cpu }, Standing::Awake { ran, rest, .. }) => Standing::Awake {
                runqueue: cpu,
                ran,
                rest,
            },
            (What::Ran { nanos }, Standing::Awake { runqueue, rest, .. }) => Standing::Awake {
                runqueue,
                ran: true,
                rest: whole_micros(rest, nanos).1,
            },
            (
                What::Stops {
                    state: Stop::Blocks,
                    ..
                },
                _,
            ) => Standing::Asleep,
            (
                What::Stops {
                    state: Stop::Ends,
                    ..
                },
                Standing::Awake { .. },
            ) => Standing::Asleep,
            _ => self,
        }
    }
}
