//! The total: what the root domain has admitted, and what it leaves (Documentation/scheduler/sched-deadline.rst, section 4.1).

ghost use Rattle.std.specs.Prelude.{◌≡◌, ◌<◌, ◌↔◌, IsTrue};
ghost use Rattle.law_findings.specs.Total.{IsNotNegative, bandwidth_of};

/// The bandwidth of a runtime in a period, in units of 2^-20; 0 where the period is 0.
pub fn bandwidth(dl_runtime: u64, dl_period: u64) -> u64
    ensures { result ≡ bandwidth_of dl_runtime dl_period }
{
    if dl_period == 0 {
        0
    } else {
        dl_runtime.wrapping_mul(1 << 20) / dl_period
    }
}

/// Whether `extra_bw`, which wraps at 2^64, is not below 0.
pub fn is_not_negative(extra_bw: u64) -> bool
    ensures { IsTrue result ↔ IsNotNegative extra_bw }
{
    extra_bw < 1 << 63
}
