//! Tasks of the class that wait: for a lower class to be put off.

use law_findings::{JudgedLaws, LineKind, ReadLine};
use law_values::{LowerTask, Ready, ReadyTasks};
use std::alloc::{AllocError, Global};
use std::collections::HashMap;
use trace_data::{Kernel, Stop};

/// A line of sched_switch: the task that stops to run, and the one that runs.
#[derive(Clone, Copy)]
pub(crate) struct Switch {
    pub pid: u64,
    pub is_deadline: bool,
    pub stop: Stop,
    pub next_pid: u64,
    pub next_is_deadline: bool,
}

/// Where and when a task blocked.
#[derive(Clone, Copy)]
struct Block {
    cpu: u32,
    at: u64,
}

/// The tasks of the class, by their pids, and which of them wait.
#[derive(Drop)]
pub(crate) struct Waits {
    places: HashMap<u64, usize>,

    /// When each blocked last.
    blocks: Vec<Option<Block>>,

    /// The task of the class that each CPU runs.
    running: Vec<Option<u64>>,
    ready: ReadyTasks,
}

impl Waits {
    pub fn new(alloc: Global, kernel: Option<Kernel>) -> Waits {
        Waits {
            places: HashMap::new(alloc),
            blocks: Vec::new(alloc),
            running: Vec::new(alloc),
            ready: ReadyTasks::new(alloc, kernel),
        }
    }

    fn place(&mut self, pid: u64) -> Result<usize, AllocError> {
        if let Some(place) = self.places.get(&pid) {
            return Ok(*place);
        }
        let place = self.blocks.len();
        self.blocks.push(None)?;
        self.places.insert(pid, place)?;
        Ok(place)
    }

    /// The task of the class that a CPU runs.
    fn runs(&self, cpu: u32) -> Option<u64> {
        *self.running.get(cpu as usize)?
    }

    fn run(&mut self, cpu: u32, pid: Option<u64>) -> Result<(), AllocError> {
        for _ in self.running.len()..cpu as usize + 1 {
            self.running.push(None)?;
        }
        if let Some(running) = self.running.get_mut(cpu as usize) {
            *running = pid;
        }
        Ok(())
    }

    /// A task can run on this CPU from this moment on.
    fn add(&mut self, task: usize, pid: u64, cpu: u32, since: u64) -> Result<(), AllocError> {
        self.ready.add(Ready {
            task,
            pid,
            cpu,
            since,
            sign: None,
        })
    }

    /// A task of the class wakes on this CPU.
    pub fn wake(&mut self, read: ReadLine, pid: u64, cpu: u32) -> Result<(), AllocError> {
        let place = self.place(pid)?;
        self.wake_lender(read, place);
        if self.ready.cpu_of(place).is_some() || self.runs(cpu) == Some(pid) {
            return Ok(());
        }
        self.add(place, pid, cpu, read.at)
    }

    /// A task of a lower class may run with the priority of one that waits for its lock: of a task that blocked on another CPU since
    /// it runs, and that it wakes.
    fn wake_lender(&mut self, read: ReadLine, place: usize) {
        if let Some(lower) = self.ready.lower(read.cpu)
            && lower.pid == read.pid
            && let Some(Some(block)) = self.blocks.get(place)
            && block.cpu != read.cpu
            && block.at >= lower.at
        {
            self.ready.restart_cpu(read.cpu, read.at);
        }
    }

    /// A task goes to this CPU.
    pub fn migrate(
        &mut self,
        judged: &mut JudgedLaws,
        read: ReadLine,
        pid: u64,
        cpu: u32,
    ) -> Result<(), AllocError> {
        let place = self.place(pid)?;
        if self.ready.cpu_of(place).is_none() {
            return Ok(());
        }
        self.ready.show(judged, place, None)?;
        self.add(place, pid, cpu, read.at)
    }

    /// A CPU switches from one task to another.
    pub fn switch(
        &mut self,
        judged: &mut JudgedLaws,
        read: ReadLine,
        switch: Switch,
    ) -> Result<(), AllocError> {
        if !switch.is_deadline {
            self.ready.judge(read.cpu, read.place(LineKind::Switch))?;
        }
        self.put_on(judged, read, switch)?;
        if switch.is_deadline {
            self.put_off(judged, read, switch)?;
        }
        Ok(())
    }

    fn put_on(
        &mut self,
        judged: &mut JudgedLaws,
        read: ReadLine,
        switch: Switch,
    ) -> Result<(), AllocError> {
        let next = self.place(switch.next_pid)?;
        if switch.next_is_deadline {
            self.ready.show(judged, next, Some(false))?;
            self.ready.put_on(read.cpu, None)?;
            return self.run(read.cpu, Some(switch.next_pid));
        }
        self.ready.show(judged, next, None)?;
        let lower = LowerTask {
            pid: switch.next_pid,
            at: read.at,
        };
        self.ready.put_on(read.cpu, Some(lower))?;
        self.run(read.cpu, None)
    }

    fn put_off(
        &mut self,
        judged: &mut JudgedLaws,
        read: ReadLine,
        switch: Switch,
    ) -> Result<(), AllocError> {
        let place = self.place(switch.pid)?;
        self.ready.show(judged, place, None)?;
        match switch.stop {
            Stop::Ready => self.add(place, switch.pid, read.cpu, read.at),
            Stop::Blocks => {
                if let Some(block) = self.blocks.get_mut(place) {
                    *block = Some(Block {
                        cpu: read.cpu,
                        at: read.at,
                    });
                }
                Ok(())
            }
            Stop::Ends => Ok(()),
        }
    }

    /// A replenishment timer that was armed at the first moment fires at the second one, or is stopped.
    pub fn restart(&mut self, armed_at: u64, at: u64) {
        self.ready.restart(armed_at, at);
    }

    /// A CPU has a tick.
    pub fn tick(&mut self, cpu: u32, at: u64) {
        self.ready.tick(cpu, at);
    }

    /// A call may change the policy of a task, or a mark its CPU: which tasks wait is not known.
    pub fn forget(&mut self) {
        self.ready.clear();
    }
}
