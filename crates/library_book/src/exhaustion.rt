//! After how long a run a budget is used up.

ghost use Rattle.std.specs.Prelude.{◌≡◌, ◌≢◌, ◌<◌, ◌≤◌, ◌/◌, ◌+◌, ◌-◌, ◌*◌, ◌^◌};
ghost use Rattle.grub_book.specs.Server.{rate_of};
ghost use Rattle.library_book.specs.Numbers.{capacity_of, reading_of_numbers};
ghost use Rattle.library_book.specs.Exhaustion.{IsExhaustion, exhaustion_fault};

use crate::codes::{DONE, RUNNING_OUT_OF_RANGE, TOO_SMALL};
use crate::numbers::{NdCapacity, NdReading, capacity_fault};
use grub_book::Queue;

/// The rate of a charge: what inactive and extra bandwidth leave, and at least the task's own.
fn rate(bw: u32, queue: Queue, now: NdReading) -> u32
    requires { now.running_bw ≤ now.this_bw }
    ensures { result ≡ rate_of bw queue now.running_bw now.this_bw }
{
    let inactive = now.this_bw - now.running_bw;
    bw.max(
        queue
            .umax()
            .saturating_sub(inactive)
            .saturating_sub(queue.uextra()),
    )
}

fn least_run(budget: u32, bw: u32, queue: Queue, now: NdReading) -> u64
    requires some { 1 ≤ bw }
    requires running { now.running_bw ≤ now.this_bw }
    ensures { IsExhaustion budget bw queue (reading_of_numbers now) result }
{
    let rate = u64::from(rate(bw, queue, now));
    let wanted = u64::from(budget) * u64::from(queue.umax());
    (wanted + (rate - 1)) / rate
}

/// The least run of a task of bandwidth `bw` whose charge, by these sums, is at least the budget. Faults: 4, 5, 62, and 3
/// where the bandwidth is 0, since then a run may be charged nothing.
pub fn exhaustion_of(budget: u32, bw: u32, queue: NdCapacity, now: NdReading, run: &mut u64) -> u32
    ensures fault { result ≡ exhaustion_fault bw (capacity_of queue) (reading_of_numbers now) }
    ensures value { result ≡ DONE
        → IsExhaustion budget bw (capacity_of queue) (reading_of_numbers now) run.new }
    ensures kept { result ≢ DONE → run.new ≡ run.old }
{
    let fault = capacity_fault(queue);
    if fault != DONE {
        return fault;
    }
    if now.running_bw > now.this_bw {
        return RUNNING_OUT_OF_RANGE;
    }
    if bw == 0 {
        return TOO_SMALL;
    }
    let queue = Queue::new(queue.umax, queue.uextra).unwrap();
    *run = least_run(budget, bw, queue, now);
    DONE
}
