//! The 0-lag time: a task that blocks stays active until the moment at which its budget would be used up at its reserved rate
//! (Lipari and Baruah 2000; Documentation/scheduler/sched-deadline.rst, section 2.2).

ghost use Rattle.std.specs.Prelude.{◌≡◌, ◌<◌, ◌↔◌, IsTrue, FitsSigned};
ghost use Rattle.std.specs.Int.{w64};
ghost use Rattle.law_findings.specs.ZeroLag.{IsArmedFor, IsNotLate, IsNotSoon, IsPast, IsWide, ahead_of, left_of, span_of, work_of};

/// 2^63, beyond which a number is none of the kernel's s64.
const WIDE: i128 = 1 << 63;

/// What an entity blocks with: budgets and spans in nanoseconds, the deadline and the clock on the runqueue's clock.
#[derive(Clone, Copy)]
pub struct Blocked {
    pub budget: i64,
    pub deadline: u64,
    pub dl_runtime: u64,
    pub dl_period: u64,
    pub clock: u64,
}

impl Blocked {
    /// The product of budget and period leaves 64 bits.
    pub fn has_wide_product(self) -> bool
        ensures { IsTrue result ↔ IsWide self }
    {
        let product = i128::from(self.budget) * i128::from(self.dl_period);
        product < -WIDE || product >= WIDE
    }

    /// The span to the 0-lag time in nanoseconds, for words: those beyond 64 bits are cut to the next that fits.
    pub fn span(self) -> i64
        requires { 0 < self.dl_runtime }
        ensures { FitsSigned w64 (span_of self) → result ≡ span_of self }
    {
        let span = ahead(self).saturating_sub(work(self));
        match i64::try_from(span) {
            Ok(span) => span,
            Err(_) => { if span < 0 { i64::MIN } else { i64::MAX } }
        }
    }
}

/// For how long the budget lasts at the reserved rate, in exact numbers.
fn work(block: Blocked) -> i128
    requires { 0 < block.dl_runtime }
    ensures { result ≡ work_of block }
{
    i128::from(block.budget) * i128::from(block.dl_period) / i128::from(block.dl_runtime)
}

/// How far the deadline is ahead.
fn ahead(block: Blocked) -> i128
    ensures { result ≡ ahead_of block }
{
    i128::from(block.deadline) - i128::from(block.clock)
}

/// How far the deadline is ahead of a moment so far behind the clock.
fn ahead_of_span(block: Blocked, span: i64) -> i128
    ensures { result ≡ left_of block span }
{
    ahead(block) - i128::from(span)
}

/// Whether a timer for this span is not behind the 0-lag time.
fn is_not_late(block: Blocked, span: i64) -> bool
    requires { 0 < block.dl_runtime }
    ensures { IsTrue result ↔ IsNotLate block span }
{
    work(block) <= ahead_of_span(block, span)
}

/// Whether a timer for this span is not before the 0-lag time.
fn is_not_soon(block: Blocked, span: i64) -> bool
    requires { 0 < block.dl_runtime }
    ensures { IsTrue result ↔ IsNotSoon block span }
{
    ahead_of_span(block, span) <= work(block)
}

/// Whether a 0-lag timer is armed for a span between `from` and `to`, where the budget is between that of `least` and that of `most`.
pub fn is_armed_for(least: Blocked, most: Blocked, from: i64, to: i64) -> bool
    requires least { 0 < least.dl_runtime }
    requires most { 0 < most.dl_runtime }
    ensures { IsTrue result ↔ IsArmedFor least most from to }
{
    is_not_soon(most, to) && is_not_late(least, from)
}

/// Whether the 0-lag time is past.
pub fn is_past(block: Blocked) -> bool
    requires { 0 < block.dl_runtime }
    ensures { IsTrue result ↔ IsPast block }
{
    ahead(block) < work(block)
}
