//! The kernel's numbers: u64 and s64, which wrap.

ghost use Rattle.std.specs.Prelude.{◌≡◌};
ghost use Rattle.kernel_rules.specs.Clock.{comes_before, quotient_of, ratio_of};

/// Whether the moment `a` is before `b` (`dl_time_before`).
pub fn is_before(a: u64, b: u64) -> bool
    ensures { result ≡ comes_before a b }
{
    a.wrapping_sub(b).cast_signed() < 0
}

/// `a` by `b`, rounded towards 0 (`div64_s64`); 0 where `b` is 0.
pub fn quotient(a: i64, b: u64) -> i64
    ensures { result ≡ quotient_of a b }
{
    if b == 0 {
        0
    } else {
        a.wrapping_div(b.cast_signed())
    }
}

/// The bandwidth of a runtime in a period, in units of 2^-20 (`to_ratio`); 0 where the period is 0.
pub fn ratio(runtime: u64, period: u64) -> u64
    ensures { result ≡ ratio_of runtime period }
{
    if period == 0 {
        0
    } else {
        runtime.wrapping_mul(1 << 20) / period
    }
}
