//! The need of one job.

ghost use Rattle.std.specs.Prelude.{◌≡◌, ◌≤◌, ◌<◌, ◌^◌};
ghost use Rattle.size_least.specs.Needs.{need_of};

/// The least runtime in each period with which work is done within a time from a renewal of the server on, all in microseconds; the period and
/// one more where no runtime is enough.
pub fn need(window: u64, work: u64, period: u32) -> u32
    requires some { 1 ≤ period }
    requires most { period < 2 ^ 31 }
    requires window { window < 2 ^ 63 }
    ensures { result ≡ need_of period window work }
{
    if window < work {
        return period + 1;
    }
    let period = u64::from(period);
    let whole = window / period;
    let early = period.saturating_sub((window - work) / (whole + 1));
    let least = if whole == 0 {
        early
    } else {
        work.div_ceil(whole).min(early)
    };
    least.max(1) as u32
}
