//! What is fixed while a record is played.

use crate::setup::RecordSetup;

/// What is fixed while a record is played.
#[derive(Clone, Copy)]
pub struct PlayTerms {
    pub setup: RecordSetup,

    /// The moment of the record's first line.
    pub begins: u64,

    /// Timers that are at most so many nanoseconds from the prediction agree.
    pub within: u64,

    /// From this line on `extra_bw` is not known.
    pub open_from: Option<u64>,
}
