//! Bandwidths, servers and charges, without state.

ghost use Rattle.std.specs.Prelude.{◌≡◌, ◌≢◌, ◌↔◌, ◌-ℤ◌, pos, Some};
ghost use Rattle.grub_book.specs.Bandwidth.{IsReservation, IsCapacity, bandwidth_of};
ghost use Rattle.grub_book.specs.Server.{woken_of, lag_of, charge_of, depleted_of};
ghost use Rattle.library_book.specs.Numbers.{reservation_of, capacity_of, server_of, reading_of_numbers, reservation_fault, constants_fault, server_fault, wake_fault, charge_fault, deplete_fault};
ghost use Rattle.library_book.specs.Exhaustion.{IsExhaustion, exhaustion_fault};
ghost use Rattle.library_book.specs.Kernel.{kernel_charge_of};
ghost use Rattle.library_book.specs.declared.codes.TheConstants.{DONE};

use library_book::{
    NdCapacity, NdParams, NdReading, NdServer, bandwidth, capacity_fault, charge_for, depleted_by,
    exhaustion_of, kernel_charge, params_fault, woken_to, zero_lag_of,
};

/// 0 exactly where the numbers are a reservation, else 1, 2 or 3, the first that holds.
#[unsafe(no_mangle)]
pub extern "C" fn nd_params_fault(params: NdParams) -> u32
    ensures value { result ≡ reservation_fault (reservation_of params) }
    ensures none { (result ≡ DONE) ↔ IsReservation (reservation_of params) }
{
    params_fault(params)
}

/// 0 exactly where the numbers are the constants of a runqueue, else 4 or 5, the first that holds.
#[unsafe(no_mangle)]
pub extern "C" fn nd_capacity_fault(queue: NdCapacity) -> u32
    ensures value { result ≡ constants_fault (capacity_of queue) }
    ensures none { (result ≡ DONE) ↔ IsCapacity (capacity_of queue) }
{
    capacity_fault(queue)
}

/// The bandwidth of a reservation in 1/2^20, rounded down; 0 where the numbers are none.
#[unsafe(no_mangle)]
pub extern "C" fn nd_bw(params: NdParams) -> u32
    ensures value { IsReservation (reservation_of params)
        → result ≡ bandwidth_of (reservation_of params) }
    ensures none { ¬ IsReservation (reservation_of params) → result ≡ 0 }
{
    bandwidth(params)
}

/// The 0-lag time of a server, which may be before 0. Faults: 1, 2, 3, 60.
#[unsafe(no_mangle)]
pub extern "C" fn nd_zero_lag(server: NdServer, params: NdParams, z: &mut i64) -> u32
    ensures fault { result ≡ server_fault (server_of server) (reservation_of params) }
    ensures value { result ≡ DONE → z.new
        ≡ pos server.deadline -ℤ pos (lag_of (server_of server) (reservation_of params)) }
    ensures kept { result ≢ DONE → z.new ≡ z.old }
{
    zero_lag_of(server, params, z)
}

/// The server of a task that wakes at the moment `m`. Faults: 1, 2, 3, 60, 61.
#[unsafe(no_mangle)]
pub extern "C" fn nd_woken(server: NdServer, params: NdParams, m: u32, woken: &mut NdServer) -> u32
    ensures fault { result ≡ wake_fault (server_of server) (reservation_of params) m }
    ensures value { result ≡ DONE
        → server_of woken.new ≡ woken_of (server_of server) (reservation_of params) m }
    ensures kept { result ≢ DONE → woken.new ≡ woken.old }
{
    woken_to(server, params, m, woken)
}

/// What a run of `dt` takes from the budget of a task of bandwidth `bw`, rounded down. Faults: 4, 5, 62.
#[unsafe(no_mangle)]
pub extern "C" fn nd_charge(
    dt: u32,
    bw: u32,
    queue: NdCapacity,
    now: NdReading,
    dq: &mut u64,
) -> u32
    ensures fault { result ≡ charge_fault (capacity_of queue) (reading_of_numbers now) }
    ensures value { result ≡ DONE
        → dq.new ≡ charge_of dt bw (capacity_of queue) now.running_bw now.this_bw }
    ensures kept { result ≢ DONE → dq.new ≡ dq.old }
{
    charge_for(dt, bw, queue, now, dq)
}

/// The least run of a task of bandwidth `bw` whose charge, by these sums, is at least the budget. Faults: 4, 5, 62, and 3
/// where the bandwidth is 0.
#[unsafe(no_mangle)]
pub extern "C" fn nd_exhaustion(
    budget: u32,
    bw: u32,
    queue: NdCapacity,
    now: NdReading,
    run: &mut u64,
) -> u32
    ensures fault { result ≡ exhaustion_fault bw (capacity_of queue) (reading_of_numbers now) }
    ensures value { result ≡ DONE
        → IsExhaustion budget bw (capacity_of queue) (reading_of_numbers now) run.new }
    ensures kept { result ≢ DONE → run.new ≡ run.old }
{
    exhaustion_of(budget, bw, queue, now, run)
}

/// The server after `dq` was taken from its budget, and how often it was recharged. Faults: 1, 2, 3, 60, 21.
#[unsafe(no_mangle)]
pub extern "C" fn nd_deplete(
    server: NdServer,
    params: NdParams,
    dq: u64,
    left: &mut NdServer,
    recharges: &mut u32,
) -> u32
    ensures fault { result ≡ deplete_fault (server_of server) (reservation_of params) dq }
    ensures value { result ≡ DONE → depleted_of (server_of server) (reservation_of params) dq
        ≡ Some (recharges.new, server_of left.new) }
    ensures kept { result ≢ DONE → (left.new ≡ left.old) × (recharges.new ≡ recharges.old) }
{
    depleted_by(server, params, dq, left, recharges)
}

/// What the kernel itself charges for a run of `dt` nanoseconds, in nanoseconds, modulo 2^64 (`grub_reclaim` of
/// kernel/sched/deadline.c). `kernel` is its version as KERNEL_VERSION has it, 0x060100 for 6.1.
#[unsafe(no_mangle)]
pub extern "C" fn nd_kernel_charge(
    kernel: u32,
    dt: u64,
    bw: u64,
    this_bw: u64,
    running_bw: u64,
    extra_bw: u64,
    max_bw: u64,
    bw_ratio: u64,
) -> u64
    ensures { result
        ≡ kernel_charge_of kernel dt bw this_bw running_bw extra_bw max_bw bw_ratio }
{
    kernel_charge(
        kernel, dt, bw, this_bw, running_bw, extra_bw, max_bw, bw_ratio,
    )
}
