//! What a task or a fair server has in the sums.

ghost use Rattle.std.specs.Prelude.{◌≡◌};
ghost use Rattle.timer_tasks.specs.Effects.{server_effect_of, task_effect_of, task_share_of};

use crate::activity::Activity;
use crate::server::{ServerState, is_stopped};
use crate::task::DeadlineTask;
use kernel_rules::share;

/// What a task or a fair server has in `this_bw` and `running_bw` of its runqueue.
#[derive(Clone, Copy)]
pub struct BandwidthShare {
    pub this_bw: u64,
    pub running_bw: u64,
}

/// What a task has in the sums of its runqueue (`__add_rq_bw`, `__add_running_bw`).
pub fn task_effect(task: DeadlineTask) -> BandwidthShare
    ensures { result ≡ task_effect_of task }
{
    let bw = task.entity.dl_bw;
    match task.activity {
        Activity::Contending | Activity::NonContending => BandwidthShare {
            this_bw: bw,
            running_bw: bw,
        },
        Activity::Inactive => BandwidthShare {
            this_bw: bw,
            running_bw: 0,
        },
        Activity::Away => BandwidthShare {
            this_bw: 0,
            running_bw: 0,
        },
    }
}

/// What a task takes from `extra_bw` of each CPU of a root domain with so many (`__dl_add`).
pub fn task_share(task: DeadlineTask, cpus: u64) -> u64
    ensures { result ≡ task_share_of task cpus }
{
    if task.is_admitted {
        share(task.entity.dl_bw, cpus)
    } else {
        0
    }
}

/// What a fair server has in the sums, besides its part of `this_bw`, which stays.
pub fn server_effect(state: ServerState, server_bw: u64) -> BandwidthShare
    ensures { result ≡ server_effect_of state server_bw }
{
    BandwidthShare {
        this_bw: 0,
        running_bw: if is_stopped(state) { 0 } else { server_bw },
    }
}
