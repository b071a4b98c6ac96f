//! What lines have told of each task.

use crate::budget::{Before, MostRuntime};
use crate::zero_lag::OpenBlock;
use law_findings::{FiredTimer, LawLine, Sign};
use std::alloc::{AllocError, Global};
use std::collections::HashMap;
use trace_data::{Donor, Enqueued, Parameters};

/// SCHED_FLAG_SUGOV: a task without a reservation of its own, of the frequency governor.
pub(crate) const SUGOV: u64 = 0x1000_0000;

/// A task's reservation as its last enqueue showed it.
#[derive(Clone, Copy)]
pub(crate) struct Reservation {
    pub parameters: Parameters,
    pub donor: Donor,
    pub entity: u64,

    /// It is served by another's reservation.
    pub is_boosted: bool,
}

impl Reservation {
    pub fn of(line: &Enqueued) -> Reservation {
        Reservation {
            parameters: line.parameters,
            donor: line.donor,
            entity: line.entity,
            is_boosted: line.entity != line.served_by,
        }
    }

    pub fn is_special(&self) -> bool {
        self.parameters.flags & SUGOV != 0
    }
}

/// A charge whose outcome the task's next line shows.
#[derive(Clone, Copy)]
pub(crate) struct Charge {
    pub place: LawLine,

    /// The replenishment timer was armed already.
    pub was_armed: bool,

    /// The same call armed it, or replenished the task.
    pub is_answered: bool,
    pub is_boosted: bool,
}

/// The last line of a task that may throttle it: a charge or an enqueue.
#[derive(Clone, Copy)]
pub(crate) struct Throttling {
    pub cpu: u32,

    /// Which line of that CPU it is.
    pub count: u64,
    pub at: u64,
    pub clock: u64,
    pub deadline: u64,
    pub dl_deadline: u64,
    pub dl_period: u64,
}

/// A replenishment timer that may be this task's: its next line tells whether it was throttled.
#[derive(Clone, Copy)]
pub(crate) struct Arming {
    pub timer: usize,
    pub place: LawLine,

    /// The moment that it is armed for.
    pub expiry: u64,

    /// By what throttled the task, where that line is among the last ones.
    pub throttling: Option<Throttling>,
}

/// A replenishment timer that was armed behind a line of this task, whose next line shows it not throttled: it is the task's if a
/// later line says so.
#[derive(Clone, Copy)]
pub(crate) struct Waiting {
    pub pid: u64,
    pub arming: Arming,
}

/// A replenishment timer that fired, and at which line of which CPU.
#[derive(Clone, Copy)]
pub(crate) struct Fired {
    pub timer: FiredTimer,
    pub cpu: u32,
    pub count: u64,
}

/// A task.
#[derive(Clone, Copy)]
pub(crate) struct Task {
    pub pid: u64,
    pub reservation: Option<Reservation>,
    pub is_queued: bool,

    /// It has left the class.
    pub is_away: bool,

    /// Its replenishment timer is armed, and when it fired last.
    pub is_armed: bool,
    pub fired: Option<Fired>,
    pub arming: Option<Arming>,
    pub charge: Option<Charge>,
    pub throttling: Option<Throttling>,

    /// What its wait for a CPU has in common with a known fault.
    pub sign: Option<Sign>,

    /// Its line before.
    pub before: Option<Before>,
    pub most_runtime: Option<MostRuntime>,
    pub block: Option<OpenBlock>,

    /// Its timers that were armed last, by their places.
    pub zero_lag_timer: Option<usize>,
    pub dl_timer: Option<usize>,
}

impl Task {
    fn new(pid: u64) -> Task {
        Task {
            pid,
            reservation: None,
            is_queued: false,
            is_away: false,
            is_armed: false,
            fired: None,
            arming: None,
            charge: None,
            throttling: None,
            sign: None,
            before: None,
            most_runtime: None,
            block: None,
            zero_lag_timer: None,
            dl_timer: None,
        }
    }

    pub fn is_boosted(&self) -> bool {
        self.reservation.is_some_and(|it| it.is_boosted)
    }
}

/// The tasks by their pids.
#[derive(Drop)]
pub(crate) struct Tasks {
    places: HashMap<u64, usize>,
    pub all: Vec<Task>,

    /// The last one that was asked for.
    last: Option<(u64, usize)>,
}

impl Tasks {
    pub fn new(alloc: Global) -> Tasks {
        Tasks {
            places: HashMap::new(alloc),
            all: Vec::new(alloc),
            last: None,
        }
    }

    /// Where the task of this pid stands, if a line has shown it.
    pub fn find(&mut self, pid: u64) -> Option<usize> {
        if let Some((last, place)) = self.last
            && last == pid
        {
            return Some(place);
        }
        let place = *self.places.get(&pid)?;
        self.last = Some((pid, place));
        Some(place)
    }

    /// Where the task of this pid stands, which is new where no line has shown it.
    pub fn place(&mut self, pid: u64) -> Result<usize, AllocError> {
        if let Some(place) = self.find(pid) {
            return Ok(place);
        }
        let place = self.all.len();
        self.all.push(Task::new(pid))?;
        self.places.insert(pid, place)?;
        Ok(place)
    }

    pub fn get(&self, place: usize) -> Option<&Task> {
        self.all.get(place)
    }

    pub fn get_mut(&mut self, place: usize) -> Option<&mut Task> {
        self.all.get_mut(place)
    }
}
