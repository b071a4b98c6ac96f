//! The server: a fair server's budget is at most its runtime, and its deadline at most a period and a runtime away
//! (Lipari and Baruah 2000).

ghost use Rattle.std.specs.Prelude.{◌≡◌, ◌↔◌, ◌<◌, IsTrue, pos};
ghost use Rattle.std.specs.Int.{int_max, int_min};
ghost use Rattle.law_findings.specs.Server.{IsLowered, IsNear, left_by, share_until, taken_of};

/// Parts of a whole bandwidth.
const WHOLE: u128 = 1_048_576;

/// A start of a fair server: the clock of its runqueue, and its reservation, in nanoseconds.
#[derive(Clone, Copy)]
pub struct ServerStart {
    pub clock: u64,
    pub dl_runtime: u64,
    pub dl_period: u64,
}

/// What is left of a budget where so many nanoseconds are taken once and in full.
fn taken(before: i64, nanos: i64) -> i128
    ensures { result ≡ taken_of before nanos }
{
    i128::from(before) - i128::from(nanos)
}

/// What idle time leaves: it takes a budget down to 0 at most, and leaves one below 0.
fn idled(before: i64, nanos: i64) -> i128
    ensures { result ≡ int_max (taken_of before nanos) (int_min before (pos 0)) }
{
    taken(before, nanos).max(i128::from(before.min(0)))
}

/// What a charge of so many nanoseconds leaves of a budget; idle time takes it down to 0 at most, and leaves one below 0.
pub fn left(is_idle: bool, before: i64, nanos: i64) -> i128
    ensures { result ≡ left_by is_idle before nanos }
{
    if is_idle {
        idled(before, nanos)
    } else {
        taken(before, nanos)
    }
}

/// Whether a charge of so many nanoseconds takes them from a budget, once and in full; idle time takes it down to 0 at most, and
/// leaves one below 0.
pub fn is_taken_once(before: i64, nanos: i64, is_idle: bool, after: i64) -> bool
    ensures { IsTrue result ↔ (after ≡ left_by is_idle before nanos) }
{
    i128::from(after) == left(is_idle, before, nanos)
}

/// Whether this is the server's share of the time from its start to this deadline.
fn is_share(start: ServerStart, deadline: u64, after: i64) -> bool
    requires { 0 < start.dl_period }
    ensures { IsTrue result ↔ (after ≡ pos (share_until deadline start)) }
{
    let bandwidth = u128::from(start.dl_runtime) * WHOLE / u128::from(start.dl_period);
    let rest = u128::from(deadline.saturating_sub(start.clock));
    match (bandwidth.checked_mul(rest), u64::try_from(after)) {
        (Some(product), Ok(after)) => u128::from(after) == product / WHOLE,
        _ => false,
    }
}

/// Whether a start under this deadline has lowered what was left of a budget to the server's share of the time up to the deadline.
pub fn is_lowered(start: Option<ServerStart>, deadline: u64, left: i128, after: i64) -> bool
    ensures { IsTrue result ↔ IsLowered start deadline left after }
{
    match start {
        Some(start) => {
            start.dl_period > 0 && i128::from(after) <= left && is_share(start, deadline, after)
        }
        None => false,
    }
}

/// Whether a deadline is at most a period and a runtime behind the clock. Spans are nanoseconds.
pub fn is_near(deadline: u64, clock: u64, dl_runtime: u64, dl_period: u64) -> bool
    ensures { IsTrue result ↔ IsNear deadline clock dl_runtime dl_period }
{
    u128::from(deadline) <= u128::from(clock) + u128::from(dl_period) + u128::from(dl_runtime)
}
