//! The constant bandwidth server of a task, and what moves it.

ghost use Rattle.std.specs.Prelude.{◌≡◌, ◌≤◌, ◌<◌, ◌+◌, ◌*◌, ◌↔◌, ◌-ℤ◌, pos, IsTrue, IfSome, ℕ};
ghost use Rattle.grub_book.specs.Bandwidth.{IsReservation};
ghost use Rattle.grub_book.specs.Server.{Fits, fresh_of, woken_of, lag_of, charge_of, recharges_of, depleted_of, IsEnough};

use crate::params::Params;
use crate::queue::Queue;

/// The last moment, in the caller's unit.
pub const MOMENT_MAX: u32 = 2147483647;

/// The server of a task (Abeni and Buttazzo 1998).
#[derive(Clone, Copy, Debug, PartialEq, Eq)]
pub struct Server {
    /// The remaining budget, in the unit of the runtime.
    pub q: u32,

    /// The deadline, a moment.
    pub d: u32,
}

impl Server {
    /// Whether the budget is 1 to the runtime of the reservation.
    pub fn fits(&self, params: Params) -> bool
        ensures { IsTrue result ↔ Fits self.now params }
    {
        1 <= self.q && self.q <= params.runtime()
    }

    /// A full budget, and the deadline 0: the server of a task that has not joined yet.
    pub fn fresh(params: Params) -> Server
        ensures value { result ≡ fresh_of params }
        ensures fits { Fits result params }
        ensures reservation { IsReservation params }
    {
        Server {
            q: params.runtime(),
            d: 0,
        }
    }
}

/// The server of a task that wakes at the moment `m`, which is at most `MOMENT_MAX` (the wake rule of the kernel's
/// `sched-deadline.rst`, "Main algorithm"): where the budget until the deadline would be more than the reservation
/// gives, the budget is full and the deadline a period after `m`; else the server is kept.
pub fn woken(server: Server, params: Params, m: u32) -> Server
    requires fits { Fits server params }
    requires moment { m ≤ MOMENT_MAX }
    ensures value { result ≡ woken_of server params m }
    ensures fits { Fits result params }
{
    let budget = u64::from(server.q) * u64::from(params.period());
    let full = u64::from(params.runtime());
    if budget + u64::from(m) * full > u64::from(server.d) * full {
        Server {
            q: params.runtime(),
            d: m + params.period(),
        }
    } else {
        server
    }
}

/// The 0-lag time (the kernel's `sched-deadline.rst`, "Bandwidth reclaiming"): the least whole moment from which on
/// the reservation gives no more than the remaining budget until the deadline. It may be before the moment 0.
pub fn zero_lag(server: Server, params: Params) -> i64
    requires { Fits server params }
    ensures value { result ≡ pos server.d -ℤ pos (lag_of server params) }

    // So long before the deadline the reservation gives no more than the budget, and longer before it more.
    ensures covered { lag_of server params * params.runtime ≤ server.q * params.period }
    ensures least { server.q * params.period < (lag_of server params + 1) * params.runtime }
{
    let lag = u64::from(server.q) * u64::from(params.period()) / u64::from(params.runtime());
    i64::from(server.d) - lag as i64
}

/// What a run of `dt` takes from the budget of a task of bandwidth `u`, on a runqueue whose active tasks have the
/// bandwidth `running` and all of whose tasks have `this` (the kernel's `sched-deadline.rst`, "Bandwidth reclaiming").
/// Bandwidths are in 1/2^20, the run and the answer in the unit of the runtime. It is rounded down.
pub fn charge(dt: u32, u: u32, queue: Queue, running: u32, this: u32) -> u64
    requires { running ≤ this }
    ensures { result ≡ charge_of dt u queue running this }
{
    let inactive = this - running;
    let rate = u.max(
        queue
            .umax()
            .saturating_sub(inactive)
            .saturating_sub(queue.uextra()),
    );
    u64::from(dt) * u64::from(rate) / u64::from(queue.umax())
}

/// The server after `dq` was taken from its budget, and how often it was recharged (Abeni and Buttazzo 1998): each
/// time the budget is used up, it gets the runtime and its deadline is postponed by the period, at once. None exactly
/// where the deadline would be after 4294967295.
pub fn deplete(server: Server, params: Params, dq: u64) -> Option<(u32, Server)>
    requires { Fits server params }
    ensures value { result ≡ depleted_of server params dq }

    // How often it is recharged is the least count that is enough.
    ensures enough { IsEnough server.q dq params.runtime (recharges_of server params dq) }
    ensures least { (k : ℕ) → IsEnough server.q dq params.runtime k
        → recharges_of server params dq ≤ k }
    ensures fits { IfSome result (λ r. Fits r.1 params) }
{
    let q = u64::from(server.q);
    if dq < q {
        return Some((
            0,
            Server {
                q: (q - dq) as u32,
                d: server.d,
            },
        ));
    }
    let runtime = u64::from(params.runtime());
    let period = u64::from(params.period());
    let k = (dq - q) / runtime + 1;
    if k > u64::from(u32::MAX - server.d) / period {
        return None;
    }
    let left = runtime - (dq - q) % runtime;
    Some((
        k as u32,
        Server {
            q: left as u32,
            d: server.d + (k * period) as u32,
        },
    ))
}
