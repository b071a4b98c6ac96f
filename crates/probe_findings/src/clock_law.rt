//! The law of clocks: the clock of a runqueue is brought up to date before a task wakes there (`update_rq_clock`).

ghost use Rattle.std.specs.Prelude.{◌≡◌};
ghost use Rattle.probe_findings.specs.Clock.{is_broken, is_late, lag_of, least_after, least_of};

/// By so much of a span a clock may be steered against another one: 1 in 1024 is above the 500 ppm of adjtimex(2).
const STEERED: u64 = 1024;

/// How far behind the clock of a wake may be, in nanoseconds.
const BEHIND: i64 = 100_000;

/// The least lag of a CPU's clock, as of a line's moment; in nanoseconds.
#[derive(Clone, Copy)]
pub struct LeastLag {
    pub nanos: i64,
    pub at: u64,
}

/// How far a CPU's clock is behind the moment of a line.
pub fn lag_of(at: u64, clock: u64) -> i64
    ensures { result ≡ lag_of at clock }
{
    at.wrapping_sub(clock).cast_signed()
}

fn least_of(a: i64, b: i64) -> i64
    ensures { result ≡ least_of a b }
{
    if a < b { a } else { b }
}

/// The least lag of a CPU after a line with this lag.
pub fn least_after(before: Option<LeastLag>, at: u64, lag: i64) -> LeastLag
    ensures { result ≡ least_after before at lag }
{
    match before {
        None => LeastLag { nanos: lag, at },
        Some(least) => {
            let steered = (at.saturating_sub(least.at) / STEERED) as i64;
            LeastLag {
                nanos: least_of(lag, least.nanos.wrapping_add(steered)),
                at,
            }
        }
    }
}

/// Whether a wake is late whose clock is so many nanoseconds behind the least lag.
pub fn is_late(behind: i64) -> bool
    ensures { result ≡ is_late behind }
{
    behind > BEHIND
}

/// Whether so many late wakes of so many break the law.
pub fn is_broken(late: u64, wakes: u64) -> bool
    ensures { result ≡ is_broken late wakes }
{
    let beyond = late.saturating_sub(2);
    beyond > wakes / 4
}
