//! A runqueue.

ghost use Rattle.std.specs.Prelude.{◌≡◌};
ghost use Rattle.timer_tasks.specs.Effects.{served_of, with_of, without_of};

use crate::effect::{BandwidthShare, server_effect};
use crate::server::ServerState;
use trace_data::Sums;

/// A runqueue (`struct dl_rq`).
#[derive(Clone, Copy)]
pub struct Runqueue {
    /// `this_bw` and `running_bw` as they are, and `extra_bw` as it was before the tasks of the record were admitted.
    pub sums: Sums,
    pub server: ServerState,

    /// A note told the sums.
    pub is_told: bool,
}

/// The runqueue without what a task or a server had in its sums.
pub fn without(runqueue: Runqueue, effect: BandwidthShare) -> Runqueue
    ensures { result ≡ without_of runqueue effect }
{
    Runqueue {
        sums: Sums {
            this_bw: runqueue.sums.this_bw.wrapping_sub(effect.this_bw),
            running_bw: runqueue.sums.running_bw.wrapping_sub(effect.running_bw),
            extra_bw: runqueue.sums.extra_bw,
        },
        ..runqueue
    }
}

/// The runqueue with what a task or a server has in its sums.
pub fn with(runqueue: Runqueue, effect: BandwidthShare) -> Runqueue
    ensures { result ≡ with_of runqueue effect }
{
    Runqueue {
        sums: Sums {
            this_bw: runqueue.sums.this_bw.wrapping_add(effect.this_bw),
            running_bw: runqueue.sums.running_bw.wrapping_add(effect.running_bw),
            extra_bw: runqueue.sums.extra_bw,
        },
        ..runqueue
    }
}

/// The runqueue with its fair server in this state.
pub fn served(runqueue: Runqueue, state: ServerState, server_bw: u64) -> Runqueue
    ensures { result ≡ served_of runqueue state server_bw }
{
    let before = server_effect(runqueue.server, server_bw);
    let after = server_effect(state, server_bw);
    let changed = with(without(runqueue, before), after);
    Runqueue {
        server: state,
        ..changed
    }
}
