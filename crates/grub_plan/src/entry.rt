//! What was asked in a run, and what was answered.

use grub_book::{Op, Reading, Reply};

/// What was asked: an op for a task, or a reading of the runqueue.
#[derive(Clone, Copy, Debug, PartialEq, Eq)]
pub enum Ask {
    Call { t: u32, op: Op },
    Read,
}

/// What came of an ask.
#[derive(Clone, Copy, Debug, PartialEq, Eq)]
pub enum Answer {
    /// The book's reply, of which a refusing one changed nothing.
    Replied(Reply),
    /// The reading of the runqueue.
    Seen(Reading),
    /// Given up while another worker held the task.
    Busy,
    /// Given up after the exchanges of the runqueue's word were lost.
    Lost,
}

/// One ask of a run, at its moment, and its answer.
#[derive(Clone, Copy, Debug, PartialEq, Eq)]
pub struct Entry {
    pub m: u32,
    pub ask: Ask,
    pub answer: Answer,
}

/// What was asked for one file's script, in the order of asking.
#[derive(Drop)]
pub struct Report {
    pub entries: Vec<Entry>,
}
