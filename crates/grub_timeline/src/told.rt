//! What playing gives.

use grub_book::Reading;
use grub_plan::Entry;

/// An entry, and the number of the runqueue that it is of: the file whose line asks, and for a timer the runqueue of the
/// block that armed it.
#[derive(Clone, Copy, Debug, PartialEq, Eq)]
pub struct ToldEntry {
    pub runqueue: u32,
    pub entry: Entry,
}

/// The entries in the order of asking, and the closing reading of each runqueue, in 1/2^20.
#[derive(Drop)]
pub struct TimeLine {
    pub told: Vec<ToldEntry>,
    pub closing: Vec<Reading>,
}
