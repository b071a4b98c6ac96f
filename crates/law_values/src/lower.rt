//! Tasks of the class that can run while their CPU runs a task of a lower class.

use law_findings::{
    Breach, Finding, JudgedLaws, Law, LawLine, LowerRun, Sign, Whose, is_run_short, is_tick_counted,
};
use std::alloc::{AllocError, Global};
use trace_data::Kernel;

/// A task of a lower class that a CPU runs from this moment on.
#[derive(Clone, Copy)]
pub struct LowerTask {
    pub pid: u64,
    pub at: u64,
}

/// A task of the class that can run from a line on: its place and pid, the CPU, and the moment of the line.
#[derive(Clone, Copy)]
pub struct Ready {
    pub task: usize,
    pub pid: u64,
    pub cpu: u32,
    pub since: u64,

    /// What its wait has in common with a known fault.
    pub sign: Option<Sign>,
}

/// A task that can run from its last line on, if its next line shows it in the class and not throttled.
#[derive(Drop)]
struct ReadyTask {
    task: usize,
    pid: u64,
    sign: Option<Sign>,

    /// When it began to wait, and since when it certainly can run.
    from: u64,
    since: u64,

    /// The ticks that count since the lower class runs.
    ticks: u64,

    /// How often a lower class ran shortly, and what was longer.
    held: u64,
    long: Vec<Breach>,
}

/// What a CPU runs, and which tasks it could run.
#[derive(Drop)]
struct CpuTasks {
    lower: Option<LowerTask>,
    ready: Vec<ReadyTask>,
}

/// The tasks of the class that can run. They go by their places, which the caller gives.
#[derive(Drop)]
pub struct ReadyTasks {
    alloc: Global,
    has_servers: bool,
    cpus: Vec<CpuTasks>,

    /// On which CPU a task can run, by the tasks' places.
    places: Vec<Option<u32>>,
}

/// Whether a kernel of this release has fair servers; one that is not known may have them.
fn has_servers(kernel: Option<Kernel>) -> bool {
    match kernel {
        Some(kernel) => kernel.major > 6 || kernel.major == 6 && kernel.minor >= 12,
        None => true,
    }
}

impl ReadyTask {
    /// How long the lower class ran up to this moment while the task could run.
    fn lower_run(&self, lower: LowerTask, at: u64) -> LowerRun {
        LowerRun {
            nanos: at.saturating_sub(self.since.max(lower.at)),
            ticks: self.ticks,
        }
    }

    /// A timer that was armed at the first moment fires at the second one: a task that waits since then may have been throttled up
    /// to now.
    fn restart(&mut self, armed_at: u64, at: u64) {
        if armed_at <= self.from {
            self.since = at;
            self.ticks = 0;
            self.held = 0;
            self.long.clear();
        }
    }

    fn judge(&mut self, lower: LowerTask, place: LawLine) -> Result<(), AllocError> {
        let run = self.lower_run(lower, place.at);
        if is_run_short(run) {
            self.held = self.held.saturating_add(1);
            return Ok(());
        }
        self.long.push(Breach {
            law: Law::Pick,
            place,
            whose: Whose::Task { pid: self.pid },
            finding: Finding::LowerRuns {
                pid: lower.pid,
                nanos: run.nanos,
                ticks: run.ticks,
            },
            sign: self.sign,
        })?;
        Ok(())
    }
}

impl CpuTasks {
    fn judge(&mut self, lower: LowerTask, place: LawLine) -> Result<(), AllocError> {
        for task in &mut self.ready {
            task.judge(lower, place)?;
        }
        Ok(())
    }
}

impl ReadyTasks {
    /// None, in a record of this kernel.
    pub fn new(alloc: Global, kernel: Option<Kernel>) -> ReadyTasks {
        ReadyTasks {
            alloc,
            has_servers: has_servers(kernel),
            cpus: Vec::new(alloc),
            places: Vec::new(alloc),
        }
    }

    fn see(&mut self, cpu: u32) -> Result<Option<&mut CpuTasks>, AllocError> {
        for _ in self.cpus.len()..cpu as usize + 1 {
            self.cpus.push(CpuTasks {
                lower: None,
                ready: Vec::new(self.alloc),
            })?;
        }
        Ok(self.cpus.get_mut(cpu as usize))
    }

    /// The task of a lower class that a CPU runs.
    pub fn lower(&self, cpu: u32) -> Option<LowerTask> {
        self.cpus.get(cpu as usize)?.lower
    }

    /// A CPU has a tick.
    pub fn tick(&mut self, cpu: u32, at: u64) {
        let has_servers = self.has_servers;
        let Some(cpu) = self.cpus.get_mut(cpu as usize) else {
            return;
        };
        let Some(lower) = cpu.lower else {
            return;
        };
        for task in &mut cpu.ready {
            if is_tick_counted(has_servers, task.lower_run(lower, at).nanos) {
                task.ticks = task.ticks.saturating_add(1);
            }
        }
    }

    /// A CPU runs another task from here on: one of a lower class, or none.
    pub fn put_on(&mut self, cpu: u32, lower: Option<LowerTask>) -> Result<(), AllocError> {
        if let Some(cpu) = self.see(cpu)? {
            cpu.lower = lower;
            for task in &mut cpu.ready {
                task.ticks = 0;
            }
        }
        Ok(())
    }

    /// Up to this line the tasks of a CPU waited for the task of a lower class that it runs.
    pub fn judge(&mut self, cpu: u32, place: LawLine) -> Result<(), AllocError> {
        let Some(cpu) = self.cpus.get_mut(cpu as usize) else {
            return Ok(());
        };
        match cpu.lower {
            Some(lower) => cpu.judge(lower, place),
            None => Ok(()),
        }
    }

    /// A task can run from here on.
    pub fn add(&mut self, ready: Ready) -> Result<(), AllocError> {
        for _ in self.places.len()..ready.task.saturating_add(1) {
            self.places.push(None)?;
        }
        let alloc = self.alloc;
        if let Some(tasks) = self.see(ready.cpu)? {
            tasks.ready.push(ReadyTask {
                task: ready.task,
                pid: ready.pid,
                sign: ready.sign,
                from: ready.since,
                since: ready.since,
                ticks: 0,
                held: 0,
                long: Vec::new(alloc),
            })?;
        }
        if let Some(place) = self.places.get_mut(ready.task) {
            *place = Some(ready.cpu);
        }
        Ok(())
    }

    /// A timer that was armed at the first moment fires at the second one, or is stopped: of the tasks that wait since then each may
    /// have been throttled up to now.
    pub fn restart(&mut self, armed_at: u64, at: u64) {
        for cpu in &mut self.cpus {
            for task in &mut cpu.ready {
                task.restart(armed_at, at);
            }
        }
    }

    /// A CPU may have run no task of a lower class up to this moment.
    pub fn restart_cpu(&mut self, cpu: u32, at: u64) {
        if let Some(cpu) = self.cpus.get_mut(cpu as usize) {
            for task in &mut cpu.ready {
                task.since = at;
                task.ticks = 0;
            }
        }
    }

    /// No task is known to wait, nor what a CPU runs.
    pub fn clear(&mut self) {
        for cpu in &mut self.cpus {
            cpu.lower = None;
            cpu.ready.clear();
        }
        for place in &mut self.places {
            *place = None;
        }
    }

    /// The CPU on which a task can run.
    pub fn cpu_of(&self, task: usize) -> Option<u32> {
        *self.places.get(task)?
    }

    /// A task's next line: it is not where it was.
    fn remove(&mut self, task: usize) -> Option<ReadyTask> {
        let cpu = self.places.get_mut(task)?.take()?;
        let ready = &mut self.cpus.get_mut(cpu as usize)?.ready;
        let place = ready.iter().position(|other| other.task == task)?;
        if place < ready.len() {
            Some(ready.swap_remove(place))
        } else {
            None
        }
    }

    /// A task's next line shows whether it could run since its last one; none where it has left the class.
    pub fn show(
        &mut self,
        judged: &mut JudgedLaws,
        task: usize,
        is_throttled: Option<bool>,
    ) -> Result<(), AllocError> {
        let Some(ready) = self.remove(task) else {
            return Ok(());
        };
        if is_throttled != Some(false) {
            return Ok(());
        }
        for _ in 0..ready.held {
            judged.holds(Law::Pick);
        }
        for breach in &ready.long {
            judged.breaks(*breach)?;
        }
        Ok(())
    }
}
