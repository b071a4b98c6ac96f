//! The fair server of a runqueue (`dl_server`), as its timers show it.

ghost use Rattle.std.specs.Prelude.{◌≡◌};
ghost use Rattle.timer_tasks.specs.Server.{after_cancel_of, after_fire_of, after_idle_of, after_lag_of, after_wake_of, is_stopped_of};

/// Whether a fair server runs, as its timers show it.
#[derive(Clone, Copy)]
pub enum ServerState {
    Stopped,

    /// Its `dl_task_timer` was started.
    Active,

    /// Its `dl_task_timer` fired, and was not started again.
    Fired,

    /// It stopped, and its bandwidth runs on until its 0-lag time.
    Stopping,
}

/// Whether it is stopped.
pub fn is_stopped(state: ServerState) -> bool
    ensures { result ≡ is_stopped_of state }
{
    match state {
        ServerState::Stopped => true,
        ServerState::Active | ServerState::Fired | ServerState::Stopping => false,
    }
}

/// After its timer fires (`dl_server_timer`).
pub fn after_fire(state: ServerState) -> ServerState
    ensures { result ≡ after_fire_of state }
{
    match state {
        ServerState::Stopped => ServerState::Stopped,
        ServerState::Active | ServerState::Fired | ServerState::Stopping => ServerState::Fired,
    }
}

/// After it is picked and has no task: at a switch to idle, or on an idle CPU (`__pick_task_dl`, `dl_server_stop`).
pub fn after_idle(state: ServerState) -> ServerState
    ensures { result ≡ after_idle_of state }
{
    match state {
        ServerState::Fired => ServerState::Stopped,
        other => other,
    }
}

/// After its 0-lag timer fires (`inactive_task_timer`).
pub fn after_lag(state: ServerState) -> ServerState
    ensures { result ≡ after_lag_of state }
{
    match state {
        ServerState::Stopping => ServerState::Stopped,
        other => other,
    }
}

/// After a fair task wakes: a server that is stopped starts (`dl_server_start`), where it may run at once with no line of its timer.
pub fn after_wake(state: ServerState) -> ServerState
    ensures { result ≡ after_wake_of state }
{
    match state {
        ServerState::Stopped => ServerState::Fired,
        other => other,
    }
}

/// After its timer is cancelled, where it stops with its last task (`dl_server_stop`).
pub fn after_cancel(state: ServerState) -> ServerState
    ensures { result ≡ after_cancel_of state }
{
    match state {
        ServerState::Stopping => ServerState::Stopping,
        ServerState::Stopped | ServerState::Active | ServerState::Fired => ServerState::Stopped,
    }
}
