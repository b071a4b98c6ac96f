//! The timers of a record, by their addresses.

use law_findings::{LawLine, TimerKind};
use std::alloc::{AllocError, Global};
use std::collections::HashMap;

/// A wake of a timer's task.
#[derive(Clone, Copy)]
pub(crate) struct Woken {
    pub line: u64,
    pub at: u64,
}

/// A timer that fired, and when it was armed, by lines; and which line of its CPU it was.
#[derive(Clone, Copy)]
pub(crate) struct Unowned {
    pub armed: u64,
    pub line: u64,
    pub cpu: u32,
    pub count: u64,
}

/// A timer that is armed. Moments are nanoseconds of the lines' clock.
#[derive(Clone, Copy)]
pub(crate) struct Armed {
    pub place: LawLine,
    pub kind: TimerKind,
    pub expiry: u64,

    /// The pid of its task; none of a server, and where no line shows it.
    pub owner: Option<u64>,

    /// The first wake of its task since.
    pub woke: Option<Woken>,

    /// Its task was seen to do what stops it.
    pub is_excused: bool,
}

/// A timer.
#[derive(Clone, Copy)]
pub(crate) struct Timer {
    pub address: u64,

    /// The pid of the task whose replenishment timer it is, where lines have shown it.
    pub owner: Option<u64>,

    /// It was armed where no line of a task stands before: it may be a server's.
    pub is_other: bool,
    pub armed: Option<Armed>,

    /// When it fired last, where no line had shown whose it is.
    pub unowned: Option<Unowned>,
}

/// The timers by their addresses.
#[derive(Drop)]
pub(crate) struct Timers {
    places: HashMap<u64, usize>,
    pub all: Vec<Timer>,
}

impl Timers {
    pub fn new(alloc: Global) -> Timers {
        Timers {
            places: HashMap::new(alloc),
            all: Vec::new(alloc),
        }
    }

    /// Where the timer of this address stands, if a line has shown it.
    pub fn find(&self, address: u64) -> Option<usize> {
        self.places.get(&address).copied()
    }

    /// Where the timer of this address stands, which is new where no line has shown it.
    pub fn place(&mut self, address: u64) -> Result<usize, AllocError> {
        if let Some(place) = self.find(address) {
            return Ok(place);
        }
        let place = self.all.len();
        self.all.push(Timer {
            address,
            owner: None,
            is_other: false,
            armed: None,
            unowned: None,
        })?;
        self.places.insert(address, place)?;
        Ok(place)
    }

    pub fn get(&self, place: usize) -> Option<&Timer> {
        self.all.get(place)
    }

    pub fn get_mut(&mut self, place: usize) -> Option<&mut Timer> {
        self.all.get_mut(place)
    }
}
