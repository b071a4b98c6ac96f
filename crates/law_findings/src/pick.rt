//! The pick: the deadline task that is put on has the earliest deadline of those of its runqueue that can run, and is not throttled.
//! While one can run, no task of a lower class runs on (Liu and Layland 1973; Abeni and Buttazzo 1998;
//! Documentation/scheduler/sched-deadline.rst, section 2.1).

ghost use Rattle.std.specs.Prelude.{◌≡◌, ◌↔◌, IsTrue};
ghost use Rattle.law_findings.specs.Pick.{IsPickRight, IsRunShort, is_tick_counted};

/// So many ticks a busy processor may take before it switches.
const TICKS: u64 = 8;

/// How long a fair server may run in one turn, in nanoseconds.
const SERVER_TURN: u64 = 50_000_000;

/// A second in nanoseconds.
const SECOND: u64 = 1_000_000_000;

/// A task of a runqueue: its deadline on the runqueue's clock, and whether it is throttled.
#[derive(Clone, Copy)]
pub struct Queued {
    pub deadline: u64,
    pub is_throttled: bool,
}

/// How long a CPU ran a task of a lower class while a deadline task of its runqueue could run.
#[derive(Clone, Copy)]
pub struct LowerRun {
    pub nanos: u64,

    /// The ticks of the CPU that count.
    pub ticks: u64,
}

/// Whether a tick counts that comes so many nanoseconds after a lower class began to run: a fair server may take its turn.
pub fn is_tick_counted(has_servers: bool, nanos: u64) -> bool
    ensures { result ≡ is_tick_counted has_servers nanos }
{
    !has_servers || nanos >= SERVER_TURN
}

/// Whether a task of a lower class ran no longer than a CPU takes to switch.
pub fn is_run_short(run: LowerRun) -> bool
    ensures { IsTrue result ↔ IsRunShort run }
{
    run.ticks <= TICKS && run.nanos < SECOND
}

/// Whether the first task may be put on before the other.
pub fn is_pick_right(picked: Queued, other: Queued) -> bool
    ensures { IsTrue result ↔ IsPickRight picked other }
{
    other.is_throttled || picked.deadline <= other.deadline
}
