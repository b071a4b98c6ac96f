//! Bandwidths, servers and charges, without state. Each call answers 0, or the number of the first fault of what it is
//! given; what it would write is then left as it was.

ghost use Rattle.std.specs.Prelude.{◌≡◌, ◌≢◌, ◌≤◌, ◌↔◌, ◌-ℤ◌, pos, Some, IfOk, IfErr, IsOk};
ghost use Rattle.grub_book.specs.Bandwidth.{IsReservation, IsCapacity, bandwidth_of};
ghost use Rattle.grub_book.specs.Server.{Fits, woken_of, lag_of, charge_of, depleted_of};
ghost use Rattle.library_book.specs.Numbers.{reservation_of, capacity_of, server_of, reading_of_numbers, constants_fault, server_fault, wake_fault, charge_fault, deplete_fault};

use crate::codes::{
    BUDGET_OUT_OF_RANGE, DEADLINE_OVERFLOW, DONE, MOMENT_OUT_OF_RANGE, RUNNING_OUT_OF_RANGE,
};
use crate::numbers::{NdCapacity, NdParams, NdReading, NdServer, capacity_fault, params_fault};
use grub_book::{MOMENT_MAX, Params, Queue, Server, charge, deplete, woken, zero_lag};

/// A server and its reservation, or the number of the first fault: 1, 2, 3 or 60.
fn admitted(server: NdServer, params: NdParams) -> Result<(Server, Params), u32>
    ensures ok { IfOk result (λ r. (r.0 ≡ server_of server) × (r.1 ≡ reservation_of params)
        × Fits r.0 r.1 × (server_fault (server_of server) (reservation_of params) ≡ DONE)) }
    ensures fault { IfErr result (λ fault.
        (fault ≡ server_fault (server_of server) (reservation_of params)) × (fault ≢ DONE)) }
{
    let fault = params_fault(params);
    if fault != DONE {
        return Err(fault);
    }
    let params = Params::new(params.runtime, params.period).unwrap();
    let server = Server {
        q: server.budget,
        d: server.deadline,
    };
    if !server.fits(params) {
        return Err(BUDGET_OUT_OF_RANGE);
    }
    Ok((server, params))
}

/// The bandwidth of a reservation in 1/2^20, rounded down; 0 where the numbers are none.
pub fn bandwidth(params: NdParams) -> u32
    ensures value { IsReservation (reservation_of params)
        → result ≡ bandwidth_of (reservation_of params) }
    ensures none { ¬ IsReservation (reservation_of params) → result ≡ 0 }
{
    match Params::new(params.runtime, params.period) {
        Ok(it) => it.bw(),
        Err(_) => 0,
    }
}

/// The 0-lag time of a server, which may be before 0. Faults: 1, 2, 3, 60.
pub fn zero_lag_of(server: NdServer, params: NdParams, z: &mut i64) -> u32
    ensures fault { result ≡ server_fault (server_of server) (reservation_of params) }
    ensures value { result ≡ DONE → z.new
        ≡ pos server.deadline -ℤ pos (lag_of (server_of server) (reservation_of params)) }
    ensures kept { result ≢ DONE → z.new ≡ z.old }
{
    match admitted(server, params) {
        Ok((server, params)) => {
            *z = zero_lag(server, params);
            DONE
        }
        Err(fault) => fault,
    }
}

/// The server of a task that wakes at the moment `m`, which is at most 2147483647. Faults: 1, 2, 3, 60, 61.
pub fn woken_to(server: NdServer, params: NdParams, m: u32, woken_server: &mut NdServer) -> u32
    ensures fault { result ≡ wake_fault (server_of server) (reservation_of params) m }
    ensures value { result ≡ DONE → server_of woken_server.new
        ≡ woken_of (server_of server) (reservation_of params) m }
    ensures kept { result ≢ DONE → woken_server.new ≡ woken_server.old }
{
    match admitted(server, params) {
        Ok((server, params)) => {
            if m > MOMENT_MAX {
                return MOMENT_OUT_OF_RANGE;
            }
            let Server { q, d } = woken(server, params, m);
            *woken_server = NdServer {
                budget: q,
                deadline: d,
            };
            DONE
        }
        Err(fault) => fault,
    }
}

/// What a run of `dt` takes from the budget of a task of bandwidth `bw`, rounded down. Faults: 4, 5, 62.
pub fn charge_for(dt: u32, bw: u32, queue: NdCapacity, now: NdReading, dq: &mut u64) -> u32
    ensures fault { result ≡ charge_fault (capacity_of queue) (reading_of_numbers now) }
    ensures value { result ≡ DONE
        → dq.new ≡ charge_of dt bw (capacity_of queue) now.running_bw now.this_bw }
    ensures kept { result ≢ DONE → dq.new ≡ dq.old }
{
    let fault = capacity_fault(queue);
    if fault != DONE {
        return fault;
    }
    if now.running_bw > now.this_bw {
        return RUNNING_OUT_OF_RANGE;
    }
    let queue = Queue::new(queue.umax, queue.uextra).unwrap();
    *dq = charge(dt, bw, queue, now.running_bw, now.this_bw);
    DONE
}

/// The server after `dq` was taken from its budget, and how often it was recharged. Faults: 1, 2, 3, 60, 21.
pub fn depleted_by(
    server: NdServer,
    params: NdParams,
    dq: u64,
    left: &mut NdServer,
    recharges: &mut u32,
) -> u32
    ensures fault { result ≡ deplete_fault (server_of server) (reservation_of params) dq }
    ensures value { result ≡ DONE → depleted_of (server_of server) (reservation_of params) dq
        ≡ Some (recharges.new, server_of left.new) }
    ensures kept { result ≢ DONE → (left.new ≡ left.old) × (recharges.new ≡ recharges.old) }
{
    match admitted(server, params) {
        Ok((server, params)) => match deplete(server, params, dq) {
            Some((count, Server { q, d })) => {
                *left = NdServer {
                    budget: q,
                    deadline: d,
                };
                *recharges = count;
                DONE
            }
            None => DEADLINE_OVERFLOW,
        },
        Err(fault) => fault,
    }
}
