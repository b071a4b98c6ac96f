//! What is known of an entity.

ghost use Rattle.std.specs.Prelude.{◌≡◌};
ghost use Rattle.probe_run.specs.State.{unseen_task, unseen_server, server_parameters_of};
ghost use Rattle.probe_run.specs.Special.{is_special, reservation_of};

use kernel_rules::{Entity, fresh, has, reserved};
use probe_findings::Whose;
use trace_data::Parameters;

/// An entity, and what of it a line has shown.
#[derive(Clone, Copy)]
pub struct Actor {
    pub whose: Whose,
    pub entity: Entity,

    /// Budget and deadline.
    pub knows_budget: bool,

    /// The reservation: of a task that is older than the record it is not.
    pub knows_parameters: bool,

    /// Whether it contends.
    pub knows_contending: bool,

    /// On whose runqueue it is.
    pub cpu: u32,

    /// Of a fair server: it was stopped since it last started.
    pub is_stopped: bool,

    /// The addresses of its `sched_dl_entity` and of its two timers, once a line has shown them.
    pub address: Option<u64>,
    pub inactive_timer: Option<u64>,
    pub deadline_timer: Option<u64>,
}

/// A task that no line has shown; `life` tasks of this pid have ended before.
pub(crate) fn new_task(pid: u64, life: u32) -> Actor
    ensures { result ≡ unseen_task pid life }
{
    Actor {
        whose: Whose::Task { pid, life },
        entity: fresh(false),
        knows_budget: false,
        knows_parameters: false,
        knows_contending: false,
        cpu: 0,
        is_stopped: false,
        address: None,
        inactive_timer: None,
        deadline_timer: None,
    }
}

/// A fair server that no line has shown.
pub(crate) fn new_server(cpu: u32) -> Actor
    ensures { result ≡ unseen_server cpu }
{
    Actor {
        whose: Whose::Server { cpu },
        entity: fresh(true),
        knows_budget: false,
        knows_parameters: true,
        knows_contending: false,
        cpu,
        is_stopped: false,
        address: None,
        inactive_timer: None,
        deadline_timer: None,
    }
}

/// The reservation of a fair server, whose deadline is its period.
pub fn server_parameters(dl_runtime: u64, dl_period: u64) -> Parameters
    ensures { result ≡ server_parameters_of dl_runtime dl_period }
{
    Parameters {
        dl_runtime,
        dl_deadline: dl_period,
        dl_period,
        flags: 0,
    }
}

/// SCHED_FLAG_SUGOV.
const SUGOV: u64 = 268_435_456;

/// Whether it is a thread of schedutil (`dl_entity_is_special`).
pub fn is_special(entity: Entity) -> bool
    ensures { result ≡ is_special entity }
{
    has(entity.parameters.flags, SUGOV)
}

/// The entity with this reservation; that of a thread of schedutil has no bandwidth.
pub fn reserve(entity: Entity, parameters: Parameters) -> Entity
    ensures { result ≡ reservation_of entity parameters }
{
    let reserved = reserved(entity, parameters);
    if has(parameters.flags, SUGOV) {
        Entity {
            dl_bw: 0,
            ..reserved
        }
    } else {
        reserved
    }
}
