//! Gates that hold workers, or count their calls.
use grub_workers::Gate;
use std::sync::atomic::AtomicU64;
use std::sync::atomic::Ordering::SeqCst;
use std::thread;

/// The longest hold, in turns: one look at a flag and one yield each.
const TURNS: u32 = 10000000;

/// Holds a worker before a call until a call of another worker was answered.
#[derive(Clone, Copy)]
pub struct Hold {
    pub worker: u32,
    pub before: u64,
    pub other: u32,
    pub after: u64,
}

/// Up to four holds between workers 0 and 1.
#[derive(Drop)]
pub struct Holds {
    holds: [Option<Hold>; 4],
    answered: [AtomicU64; 2],
    missed: AtomicU64,
}

impl Holds {
    pub(crate) fn new(holds: [Option<Hold>; 4]) -> Holds {
        Holds {
            holds,
            answered: [AtomicU64::new(0), AtomicU64::new(0)],
            missed: AtomicU64::new(0),
        }
    }

    /// How often the limit of turns was met.
    pub(crate) fn missed(&self) -> u64 {
        self.missed.load(SeqCst)
    }

    /// Waits until this call of the worker was answered.
    fn wait_for(&self, worker: u32, call: u64) {
        for _ in 0..TURNS {
            if self.answered[(worker % 2) as usize].load(SeqCst) >= call {
                return;
            }
            thread::yield_now();
        }
        self.missed.fetch_add(1, SeqCst);
    }
}

impl Gate for Holds {
    fn before(&self, worker: u32, call: u64) {
        for hold in &self.holds {
            if let Some(hold) = hold
                && hold.worker == worker
                && hold.before == call
            {
                self.wait_for(hold.other, hold.after);
            }
        }
    }

    fn after(&self, worker: u32, call: u64) {
        self.answered[(worker % 2) as usize].store(call, SeqCst);
    }
}

/// Counts the calls of all workers.
#[derive(Drop)]
pub struct Count {
    before: AtomicU64,
    after: AtomicU64,
    latest: AtomicU64,
}

impl Count {
    pub(crate) fn new() -> Count {
        Count {
            before: AtomicU64::new(0),
            after: AtomicU64::new(0),
            latest: AtomicU64::new(0),
        }
    }

    /// How many calls were begun, how many were answered, and the number of the latest.
    pub(crate) fn counts(&self) -> (u64, u64, u64) {
        (
            self.before.load(SeqCst),
            self.after.load(SeqCst),
            self.latest.load(SeqCst),
        )
    }
}

impl Gate for Count {
    fn before(&self, _worker: u32, call: u64) {
        self.before.fetch_add(1, SeqCst);
        self.latest.store(call, SeqCst);
    }

    fn after(&self, _worker: u32, _call: u64) {
        self.after.fetch_add(1, SeqCst);
    }
}
