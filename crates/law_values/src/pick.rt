//! Picks: which task is put on.

use law_findings::{
    Breach, Finding, JudgedLaws, Law, LawLine, LineKind, Queued, ReadLine, Whose, is_pick_right,
};
use std::alloc::{AllocError, Global};

/// A task of the runqueue beside the one that is put on, as its next line shows it.
#[derive(Clone, Copy)]
struct Beside {
    pid: u64,
    shown: Queued,
}

/// A switch to a task of the class. What its runqueue held is shown by the next line of each task of it.
#[derive(Drop)]
struct Pick {
    place: LawLine,
    pid: u64,
    picked: Option<Queued>,

    /// Tasks whose next lines came before that of the one that is put on.
    beside: Vec<Beside>,

    /// How many tasks' next lines are still to come.
    left: usize,
}

/// Which picks wait for a task's next line.
#[derive(Drop)]
struct Waits {
    /// On which runqueue it is queued.
    cpu: Option<u32>,
    picks: Vec<usize>,
}

/// Picks whose runqueues are not known yet. Tasks go by their places, which the caller gives.
#[derive(Drop)]
pub struct Picks {
    alloc: Global,
    open: Vec<Pick>,
    free: Vec<usize>,

    /// By the tasks' places.
    waits: Vec<Waits>,

    /// The places of the tasks that are queued on each CPU.
    queued: Vec<Vec<usize>>,
}

impl Picks {
    /// No pick waits.
    pub fn new(alloc: Global) -> Picks {
        Picks {
            alloc,
            open: Vec::new(alloc),
            free: Vec::new(alloc),
            waits: Vec::new(alloc),
            queued: Vec::new(alloc),
        }
    }

    fn waits(&mut self, task: usize) -> Result<Option<&mut Waits>, AllocError> {
        for _ in self.waits.len()..task.saturating_add(1) {
            self.waits.push(Waits {
                cpu: None,
                picks: Vec::new(self.alloc),
            })?;
        }
        Ok(self.waits.get_mut(task))
    }

    /// A task is queued on this CPU up to its next line.
    pub fn queue(&mut self, task: usize, cpu: u32) -> Result<(), AllocError> {
        for _ in self.queued.len()..cpu as usize + 1 {
            self.queued.push(Vec::new(self.alloc))?;
        }
        if let Some(queued) = self.queued.get_mut(cpu as usize) {
            queued.push(task)?;
        }
        if let Some(waits) = self.waits(task)? {
            waits.cpu = Some(cpu);
        }
        Ok(())
    }

    /// A task's next line: it is not where it was. The picks that wait for it.
    fn unqueue(&mut self, task: usize) -> Option<Vec<usize>> {
        let alloc = self.alloc;
        let waits = self.waits.get_mut(task)?;
        let cpu = waits.cpu.take()?;
        let picks = std::mem::replace(&mut waits.picks, Vec::new(alloc));
        let queued = self.queued.get_mut(cpu as usize)?;
        let place = queued.iter().position(|other| *other == task)?;
        if place < queued.len() {
            let _ = queued.swap_remove(place);
        }
        Some(picks)
    }

    /// A place for a pick.
    fn keep(&mut self, pick: Pick) -> Result<usize, AllocError> {
        if let Some(place) = self.free.pop()
            && let Some(open) = self.open.get_mut(place)
        {
            *open = pick;
            return Ok(place);
        }
        let place = self.open.len();
        self.open.push(pick)?;
        Ok(place)
    }

    /// A CPU puts this task of the class on.
    pub fn put_on(&mut self, me: usize, pid: u64, read: ReadLine) -> Result<(), AllocError> {
        let alloc = self.alloc;
        let mut tasks = Vec::new(alloc);
        if let Some(queued) = self.queued.get(read.cpu as usize) {
            tasks.extend_from_slice(queued.as_slice())?;
        }
        if !tasks.iter().any(|task| *task == me) {
            return Ok(());
        }
        let place = self.keep(Pick {
            place: read.place(LineKind::Switch),
            pid,
            picked: None,
            beside: Vec::new(alloc),
            left: tasks.len(),
        })?;
        for task in &tasks {
            if let Some(waits) = self.waits(*task)? {
                waits.picks.push(place)?;
            }
        }
        Ok(())
    }

    /// A task's next line shows what it was queued with; none where it has left the class meanwhile.
    pub fn show(
        &mut self,
        judged: &mut JudgedLaws,
        task: usize,
        pid: u64,
        shown: Option<Queued>,
    ) -> Result<(), AllocError> {
        let Some(picks) = self.unqueue(task) else {
            return Ok(());
        };
        for place in &picks {
            if let Some(shown) = shown {
                self.resolve(judged, *place, pid, shown)?;
            }
            self.leave(*place)?;
        }
        Ok(())
    }

    /// A task more of a pick's runqueue is known.
    fn resolve(
        &mut self,
        judged: &mut JudgedLaws,
        place: usize,
        pid: u64,
        shown: Queued,
    ) -> Result<(), AllocError> {
        let alloc = self.alloc;
        let Some(pick) = self.open.get_mut(place) else {
            return Ok(());
        };
        let at = pick.place;
        if pick.pid == pid {
            pick.picked = Some(shown);
            let beside = std::mem::replace(&mut pick.beside, Vec::new(alloc));
            judge_put_on(judged, at, pid, shown)?;
            for other in &beside {
                judge_pick(judged, at, pid, shown, *other)?;
            }
            return Ok(());
        }
        let other = Beside { pid, shown };
        let me = pick.pid;
        match pick.picked {
            Some(picked) => judge_pick(judged, at, me, picked, other),
            None => {
                pick.beside.push(other)?;
                Ok(())
            }
        }
    }

    /// A pick waits for one task less.
    fn leave(&mut self, place: usize) -> Result<(), AllocError> {
        if let Some(pick) = self.open.get_mut(place) {
            pick.left = pick.left.saturating_sub(1);
            if pick.left == 0 {
                self.free.push(place)?;
            }
        }
        Ok(())
    }
}

fn judge_put_on(
    judged: &mut JudgedLaws,
    place: LawLine,
    pid: u64,
    shown: Queued,
) -> Result<(), AllocError> {
    if !shown.is_throttled {
        judged.holds(Law::Pick);
        return Ok(());
    }
    judged.breaks(Breach {
        law: Law::Pick,
        place,
        whose: Whose::Task { pid },
        finding: Finding::PutOnThrottled,
        sign: None,
    })
}

fn judge_pick(
    judged: &mut JudgedLaws,
    place: LawLine,
    pid: u64,
    picked: Queued,
    other: Beside,
) -> Result<(), AllocError> {
    if other.shown.is_throttled {
        return Ok(());
    }
    if is_pick_right(picked, other.shown) {
        judged.holds(Law::Pick);
        return Ok(());
    }
    judged.breaks(Breach {
        law: Law::Pick,
        place,
        whose: Whose::Task { pid },
        finding: Finding::LaterDeadline {
            earlier: other.pid,
            deadline: other.shown.deadline,
            picked: picked.deadline,
        },
        sign: None,
    })
}
