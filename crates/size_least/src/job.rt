//! A job of a task.

ghost use Rattle.std.specs.Prelude.{◌≡◌, ◌<◌, ◌+◌, ◌^◌, min};

/// What a task does from a wake to the block after it. Moments and durations are in microseconds.
#[derive(Clone, Copy, Debug, PartialEq, Eq)]
pub struct Job {
    /// The moment of the wake.
    pub release: u64,

    /// How long the task ran.
    pub work: u64,

    /// The moment by which the job is to be done.
    pub due: u64,

    ghost bounded: { due < 2 ^ 63 },
}

impl Job {
    /// A job that is to be done in so many microseconds after its release. A due moment stops at 2^63 - 1.
    pub fn new(release: u64, work: u64, within: u32) -> Job
        ensures release { result.release ≡ release }
        ensures work { result.work ≡ work }
        ensures due { result.due ≡ min (release + within) 9223372036854775807 }
    {
        Job {
            release,
            work,
            due: release
                .saturating_add(u64::from(within))
                .min(9223372036854775807),
        }
    }
}
