//! What the kernel's log warned of while a record was made, as its notes repeat it.

ghost use Rattle.std.specs.Prelude.{◌≡◌, IfOk};

use crate::check::Verdict;
use std::alloc::AllocError;
use trace_options::Fault;

/// A verdict with a line for each warning of the kernel's log.
pub(crate) fn with_warnings<'o>(
    mut verdict: Verdict,
    warnings: &[Vec<u8>],
) -> Result<Verdict, Fault<'o>>
    ensures agrees { IfOk result (λ v. v.agrees ≡ verdict.agrees) }
    ensures laws { IfOk result (λ v. v.keeps_laws ≡ verdict.keeps_laws) }
{
    match put_warnings(&mut verdict.text, warnings) {
        Ok(()) => Ok(verdict),
        Err(AllocError) => Err(Fault::NoMemory),
    }
}

fn put_warnings(out: &mut Vec<u8>, warnings: &[Vec<u8>]) -> Result<(), AllocError> {
    for warning in warnings {
        out.extend_from_slice(b"note: the kernel's log warns: ")?;
        out.extend_from_slice(warning.as_slice())?;
        out.push(b'\n')?;
    }
    Ok(())
}
