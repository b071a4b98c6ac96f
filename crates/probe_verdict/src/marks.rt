//! The marks of a record, by their kinds.

use crate::event_name;
use probe_findings::{ProbedFunction, ProbedLine};
use std::alloc::{AllocError, Global};
use trace_data::{Mark, Probe};

/// The marks of one kind: how many there are, and the first line that shows one.
#[derive(Clone, Copy)]
pub struct MarkCount {
    pub event: ProbedFunction,
    pub count: u64,
    pub first: u64,
}

/// The marks of a record so far.
#[derive(Drop)]
pub struct Marks {
    counts: Vec<MarkCount>,
}

/// Whether a mark may change sums: a limit that is read changes none.
fn may_change_sums(probe: &Probe) -> bool {
    match probe {
        Probe::Mark(Mark::LimitHandled { is_write }) => *is_write,
        Probe::Mark(_) => true,
        _ => false,
    }
}

impl Marks {
    /// No mark was seen.
    pub fn new(alloc: Global) -> Marks {
        Marks {
            counts: Vec::new(alloc),
        }
    }

    /// Those of each kind.
    pub fn counts(&self) -> &[MarkCount] {
        &self.counts
    }

    /// Takes what a line shows.
    pub fn see(&mut self, place: ProbedLine, probe: &Probe) -> Result<(), AllocError> {
        if !may_change_sums(probe) {
            return Ok(());
        }
        let name = event_name(place.event);
        for kept in self.counts.iter_mut() {
            if event_name(kept.event) == name {
                kept.count = kept.count.saturating_add(1);
                return Ok(());
            }
        }
        self.counts.push(MarkCount {
            event: place.event,
            count: 1,
            first: place.line,
        })?;
        Ok(())
    }

    /// Appends how many marks of which kinds there were, for a verdict by probes.
    pub fn put(&self, alloc: Global, out: &mut Vec<u8>) -> Result<(), AllocError> {
        self.put_with(
            alloc,
            out,
            b"; sums that they may change are taken anew, and nothing is said of what the kernel did there\n",
        )
    }

    /// Appends how many marks of which kinds there were, and a text behind them.
    pub fn put_with(
        &self,
        alloc: Global,
        out: &mut Vec<u8>,
        behind: &[u8],
    ) -> Result<(), AllocError> {
        if self.counts.is_empty() {
            return Ok(());
        }
        out.extend_from_slice(b"marks: ")?;
        for (place, kept) in self.counts.iter().enumerate() {
            if place > 0 {
                out.extend_from_slice(b", ")?;
            }
            let (name, count, first) = (event_name(kept.event), kept.count, kept.first);
            let text = format!(in alloc; "{name} {count} (first at line {first})")?;
            out.extend_from_slice(text.as_bytes())?;
        }
        out.extend_from_slice(behind)?;
        Ok(())
    }
}
