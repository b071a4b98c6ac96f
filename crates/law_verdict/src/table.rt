//! Rows of a table for breaches.

use crate::breach::put_finding;
use crate::names::{law_name, line_name};
use crate::writing::{TaskName, put, put_whose};
use law_findings::Breach;
use std::alloc::{AllocError, Global};
use text_bytes::put_number;

/// Appends a row for a breach, below the head of the rules' table: the kind is the law, `rules` is empty, and `kernel` says what was
/// found. The moment is in nanoseconds.
pub fn put_law_row(
    alloc: Global,
    out: &mut Vec<u8>,
    breach: &Breach,
    names: &[TaskName],
) -> Result<(), AllocError> {
    put_number(out, b"", breach.place.line)?;
    put_number(out, b"\t", breach.place.at)?;
    put_number(out, b"\t", u64::from(breach.place.cpu))?;
    put(out, "\t")?;
    put_whose(alloc, out, breach.whose, names)?;
    put(out, "\t")?;
    put(out, line_name(breach.place.kind))?;
    put(out, "\tlaw ")?;
    put(out, law_name(breach.law))?;
    put(out, "\t\t")?;
    put_finding(alloc, out, breach)?;
    put(out, "\tbroken\n")
}
