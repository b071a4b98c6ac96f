//! What is counted of a task over a time line.

ghost use Rattle.std.specs.Prelude.{◌+◌, ◌<◌, ◌≤◌, ◌^◌, ℕ};
ghost use Rattle.grub_views.specs.inside.Within.{IsWithin};

use grub_timeline::{
    Step, charge_in, is_asleep, is_joined, is_kept, is_left, is_refused, is_retired, is_waiting,
    is_woken, lateness_in, least_after, recharges_in, run_of, server_before,
};

/// What is counted of a task.
#[derive(Clone, Copy)]
pub struct Tally {
    /// How long it ran, over the runs that were charged.
    pub executed: u128,

    /// What was charged for it.
    pub charged: u128,

    /// How often its budget was recharged.
    pub recharges: u128,

    pub joins: usize,
    pub wakes: usize,

    /// Joins and wakes whose server is the one before.
    pub kept: usize,

    /// How often it left a runqueue.
    pub moves: usize,

    /// Blocks before the 0-lag time.
    pub waits: usize,

    /// Blocks at the 0-lag time or after it.
    pub sleeps: usize,

    /// How often its 0-lag time came while it waited.
    pub retired: usize,

    /// The least budget that was told, or the runtime that was declared, where that is less.
    pub least: u32,

    /// Blocks after the deadline.
    pub late: usize,

    /// By how much the latest of them came after it.
    pub worst: u32,

    /// Answers that refused, but of a wake that found the task on another runqueue.
    pub refused: usize,
}

impl Tally {
    /// Of no step yet, for a task that declares this runtime.
    pub(crate) fn new(runtime: u32) -> Tally
        ensures { IsWithin 0 result }
    {
        Tally {
            executed: 0,
            charged: 0,
            recharges: 0,
            joins: 0,
            wakes: 0,
            kept: 0,
            moves: 0,
            waits: 0,
            sleeps: 0,
            retired: 0,
            least: runtime,
            late: 0,
            worst: 0,
            refused: 0,
        }
    }

    /// With one step more of the task.
    pub(crate) fn and(self, x: &Step) -> Tally
        requires { (n : ℕ) × (n + 1 < 2 ^ 64) × IsWithin n self }
        ensures within { (n : ℕ) → IsWithin n self → IsWithin (n + 1) result }
    {
        let (ask, answer) = (x.told.entry.ask, x.told.entry.answer);
        let lateness = lateness_in(x);
        Tally {
            executed: self.executed + u128::from(run_of(ask, answer)),
            charged: self.charged + u128::from(charge_in(ask, answer)),
            recharges: self.recharges + u128::from(recharges_in(answer)),
            joins: self.joins + count(is_joined(answer)),
            wakes: self.wakes + count(is_woken(answer)),
            kept: self.kept + count(is_kept(server_before(x.change), answer)),
            moves: self.moves + count(is_left(answer)),
            waits: self.waits + count(is_waiting(answer)),
            sleeps: self.sleeps + count(is_asleep(answer)),
            retired: self.retired + count(is_retired(answer)),
            least: least_after(self.least, answer),
            late: self.late + count(lateness > 0),
            worst: self.worst.max(lateness),
            refused: self.refused + count(is_refused(ask, answer)),
        }
    }
}

/// One, where this holds.
fn count(holds: bool) -> usize
    ensures most { result ≤ 1 }
{
    if holds { 1 } else { 0 }
}
