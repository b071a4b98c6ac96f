//! What event files say beside their events: the runqueue's constants, and the reservations.

ghost use Rattle.std.specs.Prelude.{◌<◌, ◌≤◌, ◌^◌, ◌*◌, length};

use grub_book::{BW_UNIT, Params, Queue};

/// A task of event files.
#[derive(Debug, Drop)]
pub struct Declared {
    pub name: Vec<u8>,
    pub params: Params,
}

/// What all event files of a trace say beside their events.
#[derive(Debug, Drop)]
pub struct Setting {
    pub queue: Queue,

    /// The server of fair tasks of each runqueue.
    pub fair: Option<Params>,

    /// The given tasks by their numbers.
    pub tasks: Vec<Declared>,
}

/// The most bandwidth of deadline tasks on a runqueue, in 1/2^20 of a processor, where the kernel's
/// `sched_rt_runtime_us` and `sched_rt_period_us` are these; none where it is not 1 to 2^20.
pub fn umax_of(runtime: u64, period: u64) -> Option<u32> {
    if period == 0 {
        return None;
    }
    let most = u128::from(runtime) * u128::from(BW_UNIT) / u128::from(period);
    if most == 0 || most > u128::from(BW_UNIT) {
        return None;
    }
    Some(most as u32)
}

/// The bandwidths of reservations, together.
fn total_of(tasks: &[Params]) -> u64
    requires { length tasks.now < 2 ^ 32 }
    ensures limit { result ≤ length tasks.now * 2 ^ 20 }
{
    let mut total = 0;
    for task in tasks {
        total += u64::from(task.bw());
    }
    total
}

/// The constants of each of so many runqueues: `most` bandwidth of deadline tasks, of which may be reclaimed at all times what
/// the tasks and the servers of fair tasks do not reserve. The kernel spreads these over the runqueues, and rounds down.
pub fn queue_of(most: u32, fair: Option<Params>, tasks: &[Params], runqueues: u32) -> Option<Queue>
    requires some { 1 ≤ runqueues }
    requires few { length tasks.now < 2 ^ 32 }
{
    let fair = match fair {
        None => 0,
        Some(server) => u64::from(server.bw()),
    };
    let reserved = (total_of(tasks) + u64::from(runqueues) * fair) / u64::from(runqueues);
    let extra = u64::from(most).saturating_sub(reserved) as u32;
    Queue::new(most, extra).ok()
}
