//! What is scheduled: a task, or a fair server.

ghost use Rattle.std.specs.Prelude.{◌≡◌};
ghost use Rattle.kernel_rules.specs.Reservation.{fresh_of};

use trace_data::{Budget, Donor, Parameters};

/// A `struct sched_dl_entity` with what of its task or server bears on it.
#[derive(Clone, Copy)]
pub struct Entity {
    /// `runtime`, `deadline`, `dl_throttled`, `dl_yielded`.
    pub budget: Budget,

    /// `dl_non_contending`.
    pub is_non_contending: bool,
    pub parameters: Parameters,

    /// The bandwidth of the parameters.
    pub dl_bw: u64,

    /// The reservation of the task that boosts it (`pi_se`); none where it is served by its own.
    pub donor: Option<Donor>,

    /// Parameters of a call of sched_setattr(2) that the next enqueue takes.
    pub new_parameters: Option<Parameters>,

    /// Of a fair server (`dl_server`), not of a task.
    pub is_server: bool,

    /// The task is of the class SCHED_DEADLINE.
    pub is_in_class: bool,

    /// It stands in the tree of its runqueue.
    pub is_in_tree: bool,

    /// `on_rq` of its task is not 0.
    pub is_queued: bool,

    /// Its task has ended (TASK_DEAD).
    pub is_dead: bool,

    /// It was replenished while its task was blocked.
    pub is_late: bool,

    /// `inactive_timer` is armed, for the 0-lag time.
    pub has_inactive_timer: bool,

    /// `dl_timer` is armed, for the replenishment.
    pub has_deadline_timer: bool,
}

/// An entity without a reservation.
pub fn fresh(is_server: bool) -> Entity
    ensures { result ≡ fresh_of is_server }
{
    Entity {
        budget: Budget {
            runtime: 0,
            deadline: 0,
            is_throttled: false,
            is_yielded: false,
        },
        is_non_contending: false,
        parameters: Parameters {
            dl_runtime: 0,
            dl_deadline: 0,
            dl_period: 0,
            flags: 0,
        },
        dl_bw: 0,
        donor: None,
        new_parameters: None,
        is_server,
        is_in_class: false,
        is_in_tree: false,
        is_queued: false,
        is_dead: false,
        is_late: false,
        has_inactive_timer: false,
        has_deadline_timer: false,
    }
}
