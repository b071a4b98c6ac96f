//! Lines that are not in the order of their moments.

ghost use Rattle.std.specs.Prelude.{◌≡◌, IfOk};

use crate::check::Verdict;
use check_record::EarlierLine;
use std::alloc::{AllocError, Global};
use trace_options::Fault;

/// A verdict that tells of the first line that is before the one before it.
pub(crate) fn with_order<'o>(
    alloc: Global,
    mut verdict: Verdict,
    earlier: Option<EarlierLine>,
) -> Result<Verdict, Fault<'o>>
    ensures { IfOk result (λ v. v.agrees ≡ verdict.agrees) }
{
    let Some(earlier) = earlier else {
        return Ok(verdict);
    };
    match put_earlier(alloc, &mut verdict.text, earlier) {
        Ok(()) => Ok(verdict),
        Err(AllocError) => Err(Fault::NoMemory),
    }
}

fn put_earlier(alloc: Global, out: &mut Vec<u8>, earlier: EarlierLine) -> Result<(), AllocError> {
    let (line, nanos) = (earlier.line, earlier.nanos);
    let (whole, part) = (nanos / 1_000_000_000, nanos % 1_000_000_000);
    let text = format!(in alloc;
        "note: moments go back by {whole}.{part:09} s at line {line}, so lines are not in their order: record again\n"
    )?;
    out.extend_from_slice(text.as_bytes())
}
