//! What the last lines of a CPU were.

use crate::zero_lag::OpenBlock;
use std::alloc::{AllocError, Global};

/// The last line of a CPU, as far as the next ones need it.
#[derive(Clone, Copy, PartialEq, Eq)]
pub(crate) enum Last {
    Other,
    Enqueued {
        pid: u64,
    },
    Dequeued {
        pid: u64,
    },

    /// A charge; whether it is of a task in the tree, and within a dequeue of that task.
    Charged {
        pid: u64,
        is_live: bool,
        is_leaving: bool,
    },
}

/// An entity that blocked, and at which line of its CPU.
#[derive(Clone, Copy)]
pub(crate) struct Blocker {
    /// None of a fair server.
    pub pid: Option<u64>,
    pub count: u64,
}

/// A replenishment timer that fired at the last line.
#[derive(Clone, Copy)]
pub(crate) struct FiringHere {
    pub timer: usize,
    pub line: u64,
}

/// What is known of a CPU.
#[derive(Clone, Copy)]
pub(crate) struct Cpu {
    /// How many lines of probes it wrote.
    pub count: u64,
    pub last: Last,

    /// The task that ran at the last line.
    pub pid: u64,
    pub blocker: Option<Blocker>,

    /// The task of the last charge, as long as what follows may be its answer.
    pub charged: Option<u64>,
    pub firing: Option<FiringHere>,

    /// The task that blocked at one of the last lines, as long as what follows may be its timer.
    pub blocking: Option<u64>,

    /// The task whose 0-lag timer fired at the last line: its handler may run still.
    pub handled: Option<u64>,
}

/// So many lines before a timer is armed its cause is looked for.
const BEFORE: u64 = 5;

const NEW: Cpu = Cpu {
    count: 0,
    last: Last::Other,
    pid: 0,
    blocker: None,
    charged: None,
    firing: None,
    blocking: None,
    handled: None,
};

impl Cpu {
    /// Whether the line with this number of its CPU stands among the last ones.
    pub fn is_recent(&self, count: u64) -> bool {
        self.count.saturating_sub(count) <= BEFORE
    }

    /// The entity whose block arms a 0-lag timer at the present line.
    pub fn blocked(&self) -> Option<Blocker> {
        match self.blocker {
            Some(blocker) if self.is_recent(blocker.count) => Some(blocker),
            _ => None,
        }
    }
}

/// The CPUs by their numbers.
#[derive(Drop)]
pub(crate) struct Cpus {
    cpus: Vec<Cpu>,

    /// The blocks of fair servers, of each CPU, as long as what follows may be their timers.
    picked: Vec<Option<OpenBlock>>,
}

impl Cpus {
    pub fn new(alloc: Global) -> Cpus {
        Cpus {
            cpus: Vec::new(alloc),
            picked: Vec::new(alloc),
        }
    }

    /// What is known of this CPU.
    pub fn of(&self, cpu: u32) -> Cpu {
        self.cpus.get(cpu as usize).copied().unwrap_or(NEW)
    }

    /// Makes room for a CPU.
    pub fn see(&mut self, cpu: u32) -> Result<(), AllocError> {
        for _ in self.cpus.len()..cpu as usize + 1 {
            self.cpus.push(NEW)?;
            self.picked.push(None)?;
        }
        Ok(())
    }

    /// Whether the handler of the 0-lag timer of this task may run: `hrtimer_active` is true then, so a block arms no timer.
    pub fn handles(&self, pid: u64) -> bool {
        self.cpus.iter().any(|cpu| cpu.handled == Some(pid))
    }

    pub fn get_mut(&mut self, cpu: u32) -> Option<&mut Cpu> {
        self.cpus.get_mut(cpu as usize)
    }

    /// The fair server of a CPU blocks.
    pub fn pick(&mut self, cpu: u32, block: OpenBlock) {
        if let Some(picked) = self.picked.get_mut(cpu as usize) {
            *picked = Some(block);
        }
    }

    /// The block of a CPU's fair server, if a timer that is armed now may be its own.
    pub fn take_picked(&mut self, cpu: u32) -> Option<OpenBlock> {
        self.picked.get_mut(cpu as usize)?.take()
    }
}
