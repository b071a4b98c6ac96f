//! What the passes of a table know. Of these types only `Terms` and `Note` have values when a program runs.

use grub_book::{Event, Op, Record, Setup};
use std::collections::LinkedList;

/// What a table is opened for: the runqueues and tasks, and the number of passes.
#[derive(Drop)]
pub struct Terms {
    pub setup: Setup,
    pub passes: u32,
}

/// A pass takes a task, or gives it back.
#[derive(Clone, Copy)]
pub enum Mark {
    Taken { pass: u32, task: u32 },
    Given { pass: u32, task: u32 },
}

/// What a task's server word and parameter word are.
pub struct Stored {
    pub server: u64,
    pub params: u64,
}

/// Whether a pass holds a task.
pub enum Hold {
    Free,
    /// The task, the op and the task's record. The transition is not in the history.
    Undecided(u32, Op, Record),
    /// The task, its record before the event and after it, and what its words are that are to be stored.
    Decided(u32, Record, Record, Stored),
}

/// What one pass knows.
pub struct Share {
    pub terms: Terms,
    pub number: u32,
    pub seen: LinkedList<Event>,
    pub hold: Hold,
    pub marks: LinkedList<Mark>,
}

/// What a seat knows: mostly one pass's share.
pub struct View {
    pub shares: LinkedList<Share>,
}

/// One atomic access of a word, which is named by its place in the row.
pub enum Access {
    Load(usize),
    Store(usize),
    /// A compare-exchange, and whether it found the word that it was to replace.
    Exchange(usize, bool),
}

/// What a seat knows, and for each of its passes the accesses that the pass has made, the first one first.
pub struct Trail {
    pub view: View,
    pub made: LinkedList<LinkedList<Access>>,
}

/// What a step is told of the call that makes it.
#[derive(Clone, Copy)]
pub struct Note {
    pub task: u32,
    pub op: Op,
}
