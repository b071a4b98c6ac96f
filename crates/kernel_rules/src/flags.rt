//! Numbers of the kernel's headers.

ghost use Rattle.std.specs.Prelude.{◌≡◌};
ghost use Rattle.kernel_rules.specs.Clock.{contains_bits};

/// ENQUEUE_WAKEUP, and DEQUEUE_SLEEP.
pub const WAKEUP: u64 = 1;

/// ENQUEUE_RESTORE, and DEQUEUE_SAVE.
pub const RESTORE: u64 = 2;

/// ENQUEUE_REPLENISH.
pub const REPLENISH: u64 = 0x20;

/// ENQUEUE_MIGRATED.
pub const MIGRATED: u64 = 0x40;

/// SCHED_FLAG_RECLAIM.
pub const RECLAIM: u64 = 2;

/// SCHED_DL_FLAGS: the flags that a reservation keeps.
pub const KEPT_FLAGS: u64 = 0x1000_0006;

/// TASK_ON_RQ_QUEUED.
pub const QUEUED: u64 = 1;

/// TASK_ON_RQ_MIGRATING.
pub const MOVING: u64 = 2;

/// SCHED_DEADLINE.
pub const DEADLINE_POLICY: u64 = 6;

/// A whole processor as a bandwidth (BW_UNIT).
pub const BW_UNIT: u64 = 1 << 20;

/// Whether one of these bits is set.
pub fn has(flags: u64, bits: u64) -> bool
    ensures { result ≡ contains_bits flags bits }
{
    flags & bits != 0
}
