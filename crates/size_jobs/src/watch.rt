//! Where a task is between its wakes and blocks, and the jobs between them.

ghost use Rattle.std.specs.Prelude.{◌≡◌};
ghost use Rattle.size_jobs.specs.Watch.{ran_of, seen_of, stopped_of, woken_of};

use trace_data::Stop;
use trace_lines::Class;

/// A job: from a wake of the task to the block after it.
#[derive(Clone, Copy, Debug, PartialEq, Eq)]
pub struct Seen {
    /// The line of the wake.
    pub line: u64,

    /// The moment of the wake, in microseconds, rounded down.
    pub release: u64,

    /// The moment of the block, in microseconds, rounded up.
    pub end: u64,

    /// How long the task ran, in microseconds, rounded up, at least 1.
    pub work: u64,

    /// The class in which it ran, as the line of its block tells it.
    pub class: Class,
}

/// Where a task is.
#[derive(Clone, Copy, Debug, PartialEq, Eq)]
pub enum Phase {
    /// No line showed it.
    Unseen,

    /// In a job whose wake is not in the trace.
    UnderWay,

    /// In a job.
    Busy {
        /// The line of its wake.
        line: u64,

        /// The moment of its wake, in nanoseconds.
        wake: u64,

        /// How long it ran, in nanoseconds.
        nanos: u64,

        /// Whether its thread began by this wake.
        is_new: bool,
    },

    /// Blocked.
    Asleep,
}

/// Why a job is left out.
#[derive(Clone, Copy, Debug, PartialEq, Eq)]
pub enum LeftOut {
    /// Its thread begins in it.
    New,

    /// Its thread ends in it.
    Last,

    /// Its wake is not in the trace.
    NoWake,
}

/// What a block brings.
#[derive(Clone, Copy, Debug, PartialEq, Eq)]
pub enum Ended {
    Nothing,
    Job(Seen),
    LeftOut(LeftOut),
}

/// A wake begins a job of a task that is in none.
pub(crate) fn woken(phase: Phase, line: u64, at: u64, is_new: bool) -> Phase
    ensures { result ≡ woken_of phase line at is_new }
{
    match phase {
        Phase::Unseen | Phase::Asleep => Phase::Busy {
            line,
            wake: at,
            nanos: 0,
            is_new,
        },
        Phase::UnderWay | Phase::Busy { .. } => phase,
    }
}

/// A run counts for the job in which the task is.
pub(crate) fn ran(phase: Phase, nanos: u64) -> Phase
    ensures { result ≡ ran_of phase nanos }
{
    match phase {
        Phase::Unseen => Phase::UnderWay,
        Phase::Busy {
            line,
            wake,
            nanos: before,
            is_new,
        } => Phase::Busy {
            line,
            wake,
            nanos: before.saturating_add(nanos),
            is_new,
        },
        Phase::UnderWay | Phase::Asleep => phase,
    }
}

/// The job that ends at a moment.
fn ended_job(line: u64, wake: u64, nanos: u64, at: u64, class: Class) -> Seen
    ensures { result ≡ seen_of line wake nanos at class }
{
    Seen {
        line,
        release: wake / 1000,
        end: at.div_ceil(1000),
        work: nanos.div_ceil(1000).max(1),
        class,
    }
}

/// A block ends a job; a task that is ready goes on with it.
pub(crate) fn stopped(phase: Phase, at: u64, stop: Stop, class: Class) -> (Phase, Ended)
    ensures { result ≡ stopped_of phase at stop class }
{
    match (stop, phase) {
        (Stop::Ready, Phase::Unseen) => (Phase::UnderWay, Ended::Nothing),
        (Stop::Ready, _) => (phase, Ended::Nothing),
        (_, Phase::Busy { is_new: true, .. }) => (Phase::Asleep, Ended::LeftOut(LeftOut::New)),
        (Stop::Ends, Phase::Busy { .. }) => (Phase::Asleep, Ended::LeftOut(LeftOut::Last)),
        (
            Stop::Blocks,
            Phase::Busy {
                line,
                wake,
                nanos,
                ..
            },
        ) => (
            Phase::Asleep,
            Ended::Job(ended_job(line, wake, nanos, at, class)),
        ),
        (_, _) => (Phase::Asleep, Ended::LeftOut(LeftOut::NoWake)),
    }
}
