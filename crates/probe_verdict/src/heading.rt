//! What a verdict says of a record besides its values.

use trace_data::Kernel;

/// A task, as a record names it.
#[derive(Drop)]
pub struct NamedTask {
    pub pid: u64,

    /// Its comm at the first line that shows it.
    pub comm: Vec<u8>,
}

/// How many lines the kernel dropped while the record was made.
#[derive(Clone, Copy)]
pub struct DroppedLines {
    /// Of the trace's buffer.
    pub lines: u64,

    /// Hits of probes that were missed.
    pub hits: u64,
}

/// What a verdict says of a record besides its values.
#[derive(Clone, Copy)]
pub struct ProbeHeading<'a> {
    /// The name of the record.
    pub trace: &'a [u8],
    pub kernel: Option<Kernel>,

    /// The kernel's whole release, as the record tells it; none where an option names the kernel.
    pub release: Option<&'a [u8]>,

    /// The CPUs of the root domain.
    pub domain: &'a [u32],
    pub tasks: &'a [NamedTask],

    /// How many lines of probes it has, and the moments of the first and the last one, in nanoseconds.
    pub lines: u64,
    pub from: u64,
    pub to: u64,

    /// None where no note tells it.
    pub lost: Option<DroppedLines>,

    /// Whether the sums were taken from the lines, since no line shows a dequeue.
    pub takes_sums: bool,
}
