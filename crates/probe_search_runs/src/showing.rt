//! What a play comes to, in words.

use probe_findings::{Deviation, KindCounts, QuantityKind};
use probe_verdict::{kind_name, put_row};
use std::alloc::{AllocError, Global};
use std::io::Write;

/// Each kind of values.
const KINDS: [QuantityKind; 15] = [
    QuantityKind::ZeroLag,
    QuantityKind::ZeroLagMoment,
    QuantityKind::Addresses,
    QuantityKind::Budget,
    QuantityKind::Capacities,
    QuantityKind::Choices,
    QuantityKind::Deadline,
    QuantityKind::ExtraBw,
    QuantityKind::Flags,
    QuantityKind::Laws,
    QuantityKind::Parameters,
    QuantityKind::RunningBw,
    QuantityKind::ThisBw,
    QuantityKind::Timers,
    QuantityKind::TotalBw,
];

/// Prints how many values of each kind are equal, and how many differ.
pub(crate) fn put_counts<W: Write>(out: &mut W, counts: &KindCounts) {
    for kind in KINDS {
        let compared = counts.of(kind);
        if compared.equal > 0 || compared.differ > 0 {
            let _ = writeln!(
                out,
                "{}\t{}\t{}",
                kind_name(kind),
                compared.equal,
                compared.differ
            );
        }
    }
}

/// Prints the first value that differs.
pub(crate) fn put_first<W: Write>(
    alloc: Global,
    out: &mut W,
    first: Option<Deviation>,
) -> Result<(), AllocError> {
    if let Some(first) = first {
        let mut row = Vec::new(alloc);
        put_row(alloc, &mut row, &first.comparison, &[])?;
        let _ = out.write_all(b"first\t");
        let _ = out.write_all(&row);
    }
    Ok(())
}
