//! What a verdict says of a record besides its timers.

use timer_play::RecordSetup;
use trace_data::Kernel;

/// What a verdict says of a record besides its timers.
#[derive(Clone, Copy)]
pub struct TimerHeading<'a> {
    /// The name of the record.
    pub trace: &'a [u8],
    pub kernel: Option<Kernel>,

    /// The kernel's whole release, as the record tells it; none where an option names the kernel.
    pub release: Option<&'a [u8]>,

    /// The CPUs of the root domain.
    pub domain: &'a [u32],
    pub setup: RecordSetup,

    /// `dl_bw->total_bw` at the beginning, modulo 2^64, where a note tells it.
    pub total_bw: Option<u64>,

    /// In nanoseconds.
    pub within: u64,

    /// Lines that tell what else bears on the comparison.
    pub beside: &'a [u8],
}
