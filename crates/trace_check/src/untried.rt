//! Kernels whose release was not tried.

ghost use Rattle.std.specs.Prelude.{◌≡◌, IfErr, IfOk};
ghost use Rattle.trace_check.specs.Untried.{TellsTried, is_judged, tried_by, untried_by};

use crate::check::Verdict;
use kernel_rules::{is_judged_by_probes, is_judged_by_timers, tried_by_probes, tried_by_timers};
use std::alloc::{AllocError, Global};
use trace_data::Kernel;
use trace_options::Fault;

/// What a record is compared by.
#[derive(Clone, Copy)]
pub(crate) enum Check {
    Probes,
    Timers,
}

/// The releases that were tried, in words.
fn tried_by(check: Check) -> &'static str
    ensures { result.now ≡ tried_by check }
{
    match check {
        Check::Probes => tried_by_probes(),
        Check::Timers => tried_by_timers(),
    }
}

fn is_judged(check: Check, kernel: Option<Kernel>) -> bool
    ensures { result ≡ is_judged check kernel }
{
    match check {
        Check::Probes => is_judged_by_probes(kernel),
        Check::Timers => is_judged_by_timers(kernel),
    }
}

/// The kernel, where its release was not tried.
fn untried(check: Check, kernel: Option<Kernel>) -> Option<Kernel>
    ensures { result ≡ untried_by check kernel }
{
    if is_judged(check, kernel) {
        None
    } else {
        kernel
    }
}

/// The verdict on a kernel that was tried. That on another one says so where all is equal, and is none where so many values differ.
pub(crate) fn of_release<'o>(
    alloc: Global,
    mut verdict: Verdict,
    check: Check,
    kernel: Option<Kernel>,
    differ: u64,
) -> Result<Verdict, Fault<'o>>
    ensures agrees { IfOk result (λ v. v.agrees ≡ verdict.agrees) }
    ensures tried { IfErr result (TellsTried check) }
{
    let Some(kernel) = untried(check, kernel) else {
        return Ok(verdict);
    };
    if !verdict.agrees {
        return Err(Fault::UntriedKernel {
            kernel,
            tried: tried_by(check),
            differ,
        });
    }
    match put_untried(alloc, &mut verdict.text, check, kernel) {
        Ok(()) => Ok(verdict),
        Err(AllocError) => Err(Fault::NoMemory),
    }
}

/// Appends that the release was not tried.
fn put_untried(
    alloc: Global,
    out: &mut Vec<u8>,
    check: Check,
    kernel: Kernel,
) -> Result<(), AllocError> {
    let (major, minor, patch) = (kernel.major, kernel.minor, kernel.patch);
    let tried = tried_by(check);
    let text = format!(in alloc;
        "note: {major}.{minor}.{patch} is not among the releases that were tried: {tried}\n"
    )?;
    out.extend_from_slice(text.as_bytes())
}
