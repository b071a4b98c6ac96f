//! Known faults of kernels that were released.

ghost use Rattle.std.specs.Prelude.{◌≡◌};
ghost use Rattle.law_findings.specs.Known.{is_known_in, is_since};

use trace_data::Kernel;

/// What a breach has in common with a known fault.
#[derive(Clone, Copy, PartialEq, Eq)]
pub enum Sign {
    /// The timer of a throttled task fired while the task was out of the class.
    LeftThrottled,

    /// The timer of a throttled task fired while the task was blocked, and did not replenish it.
    BoostEnded,

    /// The product of budget and period leaves 64 bits.
    ProductWraps,

    /// A task left the class blocked, with its 0-lag time past.
    LeftAsleep,

    /// extra_bw is below 0, on a kernel with fair servers.
    ServersTakenTwice,

    /// extra_bw is below 0, behind a line of a function that takes shares again.
    SharesTakenAgain,

    /// extra_bw is below 0, and was too low as the record began.
    LowAtStart,

    /// A boost replenished a throttled task, and its CPU did not choose anew.
    BoostNotPicked,
}

/// Whether a kernel is of this minor release of Linux 6, or of a later release.
fn is_since(kernel: Kernel, minor: u32) -> bool
    ensures { result ≡ is_since kernel minor }
{
    kernel.major > 6 || kernel.major == 6 && kernel.minor >= minor
}

/// Whether a kernel of this release is known to have the fault: from 6.1 on, those of fair servers from 6.12 on, and that of a boost
/// before 6.3.
pub fn is_known(sign: Sign, kernel: Option<Kernel>) -> bool
    ensures { result ≡ is_known_in sign kernel }
{
    let Some(kernel) = kernel else {
        return false;
    };
    match sign {
        Sign::ServersTakenTwice => is_since(kernel, 12),
        Sign::BoostNotPicked => is_since(kernel, 1) && !is_since(kernel, 3),
        Sign::LeftThrottled
        | Sign::BoostEnded
        | Sign::ProductWraps
        | Sign::LeftAsleep
        | Sign::SharesTakenAgain
        | Sign::LowAtStart => is_since(kernel, 1),
    }
}
