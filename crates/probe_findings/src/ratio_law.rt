//! The law of ratios: `max_bw` and `bw_ratio` of a CPU come from one runtime and period.

ghost use Rattle.std.specs.Prelude.{◌≡◌};
ghost use Rattle.probe_findings.specs.Ratio.{EachPairIsTaken, greatest_ratio, is_ratio};

use kernel_rules::BW_UNIT;

/// One, by 2^-28: a `bw_ratio` by a `max_bw`.
const PRODUCT: u64 = 1 << 28;

/// Whether `max_bw` and `bw_ratio` come from one runtime and period (`init_dl_rq_bw_ratio`): in whole numbers more than one
/// `bw_ratio` fits a `max_bw`, since each is rounded by itself.
pub fn is_ratio(max_bw: u64, bw_ratio: u64) -> bool
    ensures { result ≡ is_ratio max_bw bw_ratio }
{
    if max_bw == 0 {
        bw_ratio == 0 || bw_ratio >= PRODUCT
    } else if max_bw >= BW_UNIT {
        bw_ratio == 256
    } else {
        PRODUCT / (max_bw + 1) <= bw_ratio && bw_ratio <= PRODUCT / max_bw
    }
}

/// The greatest `bw_ratio` that a `max_bw` may have.
pub fn greatest_ratio(max_bw: u64) -> u64
    ensures { result ≡ greatest_ratio max_bw }
{
    if max_bw == 0 {
        0
    } else if max_bw >= BW_UNIT {
        256
    } else {
        PRODUCT / max_bw
    }
}

/// Each runtime within a period, as sched_rt_runtime_us and sched_rt_period_us give it (`to_ratio`), gives a pair that the law takes.
pub fn each_pair_is_taken()
    ensures { EachPairIsTaken }
{}
