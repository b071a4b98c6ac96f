//! A row for each comparison, for pandas and gnuplot.

use crate::heading::NamedTask;
use crate::names::{event_name, kind_name};
use crate::writing::{put, put_subject, put_value};
use probe_findings::{Comparison, kind_of};
use std::alloc::{AllocError, Global};

/// The first line of a table.
pub const TABLE_HEAD: &str = "line\tmoment\tcpu\ttask\tevent\tkind\trules\tkernel\tanswer\n";

/// Appends the row of a comparison; moments are nanoseconds.
pub fn put_row(
    alloc: Global,
    out: &mut Vec<u8>,
    row: &Comparison,
    names: &[NamedTask],
) -> Result<(), AllocError> {
    let (line, at, cpu) = (row.place.line, row.place.at, row.place.cpu);
    let text = format!(in alloc; "{line}\t{at}\t{cpu}\t")?;
    put(out, text.as_str())?;
    put_subject(alloc, out, row.subject, names)?;
    let event = event_name(row.place.event);
    let kind = kind_name(kind_of(row.quantity));
    let text = format!(in alloc; "\t{event}\t{kind}\t")?;
    put(out, text.as_str())?;
    put_value(alloc, out, row.rules, names)?;
    put(out, "\t")?;
    put_value(alloc, out, row.kernel, names)?;
    let answer = if row.is_equal { "equal" } else { "differs" };
    put(out, "\t")?;
    put(out, answer)?;
    put(out, "\n")
}
