//! A record, as its lines are read one by one.

ghost use Rattle.std.specs.Prelude.{◌≡◌, ◌<◌, ◌≤◌, ◌+◌, IfOk, OnOk, fold, length, map, nat_lt, position, slice_get, vec_len};
ghost use Rattle.timer_record.specs.Kept.{before_in, before_is, keeps, kept_at_first, kept_of, number_in, numbered, numbered_in, place_in, placed_in, with_before};
ghost use Rattle.timer_record.specs.Passing.{idled_in, idles_already, is_deadline_at};
ghost use Rattle.timer_record.specs.Records.{above_by, above_in, begun_in, come_in, ended_in, given_in, is_due, is_in_class, is_own, kept_with, lines_of, noted_in, told_in, with_note, withdrawn};

use crate::before::Before;
use crate::event::{KeptEvent, KeptLine};
use crate::lines::{
    AddressLines, GivenReservation, KeptLines, TaskLines, TaskNote, TimerLines, Unlisted,
    policy_above,
};
use crate::moment::{Passing, ROUNDING};
use std::alloc::{AllocError, Global};
use std::collections::HashMap;
use trace_data::{Fixed, Policy};

/// A record that is being read.
#[derive(Drop)]
pub struct OpenRecord {
    pub(crate) lines: KeptLines,

    /// What is known of the tasks so far, by their numbers.
    pub(crate) passing: Vec<Passing>,

    /// Notes that are still to come, by their moments.
    pub(crate) notes: Vec<TaskNote>,

    /// How many of them came.
    pub(crate) come: usize,
    pub(crate) pids: HashMap<u64, u32>,
    pub(crate) addresses: HashMap<u64, TimerPlace>,

    /// The lines of the first wakes of tasks of the class that have no reservation, by their pids.
    pub(crate) strangers: HashMap<u64, u64>,

    /// The last line of each CPU.
    pub(crate) before: Vec<Before>,

    /// Lines that say no more than that a CPU idles are kept.
    pub(crate) keeps_idle: bool,

    /// Lines of cancelled timers are kept.
    pub(crate) keeps_cancels: bool,
}

/// Where a line stands.
#[derive(Clone, Copy)]
pub(crate) struct KeptPlace {
    pub(crate) line: u64,
    pub(crate) at: u64,
    pub(crate) cpu: u32,
    pub(crate) is_idle: bool,
}

/// An address, and the timer that is there now, by their numbers.
#[derive(Clone, Copy)]
pub(crate) struct TimerPlace {
    pub(crate) address: u32,
    pub(crate) timer: u32,
}

impl OpenRecord {
    /// A record without a line. Lines that say no more than that a CPU idles, and lines of cancelled timers, are kept where they are
    /// wanted.
    pub fn new(alloc: Global, keeps_idle: bool, keeps_cancels: bool) -> OpenRecord
        ensures { kept_of result ≡ kept_at_first keeps_idle keeps_cancels }
    {
        OpenRecord {
            lines: KeptLines {
                tasks: Vec::new(alloc),
                addresses: Vec::new(alloc),
                timers: Vec::new(alloc),
                told: Vec::new(alloc),
                kept: Vec::new(alloc),
                begins: None,
                ends: 0,
                count: 0,
                boosted: 0,
                unlisted: None,
            },
            passing: Vec::new(alloc),
            notes: Vec::new(alloc),
            come: 0,
            pids: HashMap::new(alloc),
            addresses: HashMap::new(alloc),
            strangers: HashMap::new(alloc),
            before: Vec::new(alloc),
            keeps_idle,
            keeps_cancels,
        }
    }

    /// An option's reservation for the task of this pid: it stands above what notes say of its reservation, not of when it is admitted.
    #[tactic(auto, unfolding(crate::specs::Records::given_in))]
    pub fn give(&mut self, given: GivenReservation) -> Result<(), AllocError>
        ensures { OnOk result (kept_of self.new ≡ given_in given (kept_of self.old)) }
    {
        let task = self.task(given.pid)?;
        if let Some(lines) = self.lines.tasks.get_mut(task as usize) {
            lines.given = Some(given.parameters);
        }
        if let Some(passing) = self.passing.get_mut(task as usize) {
            passing.is_deadline = true;
        }
        Ok(())
    }

    /// A note of a task, before the first line: at this moment, or at the start; by this pid; on this CPU.
    #[tactic(auto, unfolding(crate::specs::Records::noted_in))]
    pub fn note(
        &mut self,
        pid: u64,
        at: Option<u64>,
        by: Option<u64>,
        cpu: u32,
        policy: Policy,
    ) -> Result<(), AllocError>
        ensures { OnOk result
            (kept_of self.new ≡ noted_in pid at by cpu policy (kept_of self.old)) }
    {
        let task = self.task(pid)?;
        let told = TaskNote {
            task,
            at,
            moment: at.unwrap_or(0),
            is_by_itself: is_by_itself(pid, by),
            cpu,
            policy,
        };
        insert_told(&mut self.notes, told)
    }

    /// A line of an event: its number, moment and CPU, and the pid of the task that runs there.
    #[tactic(auto, unfolding(crate::specs::Records::kept_with))]
    pub fn line(
        &mut self,
        line: u64,
        at: u64,
        cpu: u32,
        pid: u64,
        fixed: Fixed,
    ) -> Result<(), AllocError>
        ensures kept { OnOk result (kept_of self.new ≡ kept_with
            (record { line = line; at = at; cpu = cpu; pid = pid; fixed = fixed })
            (kept_of self.old)) }
        // What is kept only grows, and by a line at most.
        ensures grows { OnOk result
            (length (kept_of self.new).kept ≤ length (kept_of self.old).kept + 1) }
    {
        self.begin(at)?;
        self.pass(
            KeptPlace {
                line,
                at,
                cpu,
                is_idle: pid == 0,
            },
            pid,
            fixed,
        )
    }

    /// Of the tasks of the class that have a 0-lag timer and no reservation so far, the one that woke first.
    pub fn unlisted(&self) -> Option<Unlisted>
        ensures { result ≡ self.now.lines.unlisted }
    {
        self.lines.unlisted
    }

    /// The lines, when there are no more.
    #[tactic(auto, unfolding(crate::specs::Records::ended_in))]
    pub fn finish(mut self) -> Result<KeptLines, AllocError>
        ensures { IfOk result (λ v. lines_of v ≡ ended_in (kept_of self)) }
    {
        self.tell(u64::MAX)?;
        put_above(&mut self.lines.told, &self.lines.tasks);
        withdraw_all(&mut self.lines.tasks, &self.lines.told);
        let OpenRecord {
            lines,
            passing: _,
            notes: _,
            come: _,
            pids: _,
            addresses: _,
            strangers: _,
            before: _,
            keeps_idle: _,
            keeps_cancels: _,
        } = self;
        Ok(lines)
    }

    #[tactic(auto, unfolding(crate::specs::Records::begun_in))]
    fn begin(&mut self, at: u64) -> Result<(), AllocError>
        ensures { OnOk result (kept_of self.new ≡ begun_in at (kept_of self.old)) }
    {
        if self.lines.begins.is_none() {
            self.lines.begins = Some(at);
        }
        self.lines.ends = at;
        self.lines.count = self.lines.count.saturating_add(1);
        self.tell(at)
    }

    /// The number of the task of this pid, which is new where none is.
    #[tactic(auto, unfolding(crate::specs::Kept::numbered_in))]
    fn task(&mut self, pid: u64) -> Result<u32, AllocError>
        ensures number { IfOk result (λ n. n ≡ number_in pid (kept_of self.old)) }
        ensures state { OnOk result (kept_of self.new ≡ numbered_in pid (kept_of self.old)) }
    {
        if let Some(task) = self.pids.get(&pid) {
            return Ok(*task);
        }
        let task = number(self.lines.tasks.len());
        self.lines.tasks.push(TaskLines {
            pid,
            given: None,
            zero_lag_timer: crate::vote::Vote::new(),
        })?;
        self.passing.push(Passing::new())?;
        let _ = self.pids.insert(pid, task)?;
        Ok(task)
    }

    pub(crate) fn task_of(&self, pid: u64) -> Option<u32>
        ensures { result ≡ (kept_of self.now).numbers pid }
    {
        self.pids.get(&pid).copied()
    }

    /// The timer at this address, which is new where none is.
    #[tactic(auto, unfolding(crate::specs::Kept::placed_in))]
    pub(crate) fn timer(&mut self, address: u64) -> Result<TimerPlace, AllocError>
        ensures place { IfOk result (λ p. p ≡ place_in address (kept_of self.old)) }
        ensures state { OnOk result (kept_of self.new ≡ placed_in address (kept_of self.old)) }
    {
        if let Some(there) = self.addresses.get(&address) {
            return Ok(*there);
        }
        let there = TimerPlace {
            address: number(self.lines.addresses.len()),
            timer: number(self.lines.timers.len()),
        };
        self.lines.addresses.push(AddressLines::new())?;
        self.lines.timers.push(TimerLines::new(there.address))?;
        let _ = self.addresses.insert(address, there)?;
        Ok(there)
    }

    /// The notes of moments before this one come.
    #[tactic(auto, unfolding(crate::specs::Records::told_in))]
    fn tell(&mut self, at: u64) -> Result<(), AllocError>
        ensures { OnOk result (kept_of self.new ≡ told_in at (kept_of self.old)) }
    {
        for i in self.come..self.notes.len() {
            let Some(told) = note_at(&self.notes, i) else {
                return Ok(());
            };
            if !is_due(told, at) {
                return Ok(());
            }
            self.come = i + 1;
            self.come_to(told)?;
        }
        Ok(())
    }

    #[tactic(auto, unfolding(crate::specs::Records::come_in))]
    fn come_to(&mut self, told: TaskNote) -> Result<(), AllocError>
        ensures { OnOk result (kept_of self.new ≡ come_in told (kept_of self.old)) }
    {
        let mut moment = told.moment;
        if let Some(passing) = self.passing.get_mut(told.task as usize) {
            if let Some(at) = told.at {
                moment = passing.change_before(at, told.is_by_itself);
            }
            *passing = passing.told(is_deadline(told.policy), told.moment);
        }
        insert_told(&mut self.lines.told, TaskNote { moment, ..told })
    }

    pub(crate) fn before(&self, cpu: u32) -> Before
        ensures { result ≡ (kept_of self.now).before cpu }
    {
        self.before
            .get(cpu as usize)
            .copied()
            .unwrap_or(Before::Nothing)
    }

    #[tactic(auto, unfolding(crate::specs::Kept::before_is))]
    pub(crate) fn set_before(&mut self, cpu: u32, before: Before) -> Result<(), AllocError>
        ensures { OnOk result (kept_of self.new ≡ before_is cpu before (kept_of self.old)) }
    {
        put_before(&mut self.before, cpu, before)
    }

    pub(crate) fn is_deadline(&self, task: u32) -> bool
        ensures { result ≡ is_deadline_at task (kept_of self.now) }
    {
        match self.passing.get(task as usize) {
            Some(passing) => passing.is_deadline,
            None => false,
        }
    }

    pub(crate) fn keep(&mut self, place: KeptPlace, event: KeptEvent) -> Result<(), AllocError>
        ensures { OnOk result (kept_of self.new ≡ keeps place event (kept_of self.old)) }
    {
        self.lines.kept.push(KeptLine {
            line: place.line,
            at: place.at,
            cpu: place.cpu,
            is_idle: place.is_idle,
            event,
        })?;
        Ok(())
    }

    /// A line that says no more than that a CPU idles; one of many in a row is enough.
    #[tactic(auto, unfolding(crate::specs::Passing::idled_in))]
    pub(crate) fn keep_idle(&mut self, place: KeptPlace) -> Result<(), AllocError>
        ensures { OnOk result (kept_of self.new ≡ idled_in place (kept_of self.old)) }
    {
        if self.keeps_idle && place.is_idle && !idles_already(&self.lines.kept, place.cpu) {
            self.keep(place, KeptEvent::Idles)
        } else {
            Ok(())
        }
    }
}

/// There is a place for a CPU.
#[tactic(auto, using(crate::proofs::BeforeLemmas::before_more))]
fn make_place(before: &mut Vec<Before>, cpu: u32) -> Result<(), AllocError>
    ensures room { OnOk result (cpu < vec_len before.new) }
    ensures same { OnOk result (before_in before.new.items ≡ before_in before.old.items) }
{
    let place = cpu as usize;
    if before.len() <= place {
        before.resize(place + 1, Before::Nothing)?;
    }
    Ok(())
}

/// What the last line of a CPU tells.
fn put_before(before: &mut Vec<Before>, cpu: u32, told: Before) -> Result<(), AllocError>
    ensures { OnOk result (before_in before.new.items
        ≡ with_before cpu told (before_in before.old.items)) }
{
    make_place(before, cpu)?;
    before[cpu as usize] = told;
    Ok(())
}

/// A count as a number of a list, or the greatest one.
pub(crate) fn number(count: usize) -> u32
    ensures { result ≡ numbered count }
{
    count.min(u32::MAX as usize) as u32
}

/// The note at a place.
pub(crate) fn note_at(notes: &[TaskNote], place: usize) -> Option<TaskNote>
    ensures { result ≡ slice_get notes.now place }
{
    notes.get(place).copied()
}

/// Whether the moment of a note is before this one, even where it was rounded.
fn is_due(told: TaskNote, at: u64) -> bool
    ensures { result ≡ is_due at told }
{
    told.moment.saturating_add(ROUNDING) < at
}

fn is_by_itself(pid: u64, by: Option<u64>) -> bool
    ensures { result ≡ is_own pid by }
{
    match by {
        None => true,
        Some(by) => by == pid,
    }
}

fn is_deadline(policy: Policy) -> bool
    ensures { result ≡ is_in_class policy }
{
    match policy {
        Policy::Deadline(_) => true,
        Policy::Other => false,
    }
}

/// What an option gives to the task of a note stands above it.
fn above(note: TaskNote, tasks: &[TaskLines]) -> TaskNote
    ensures { result ≡ above_by (slice_get tasks.now note.task) note }
{
    match tasks.get(note.task as usize) {
        Some(task) => TaskNote {
            policy: policy_above(note.policy, task.given),
            ..note
        },
        None => note,
    }
}

/// What options give stands above each note.
fn put_above(told: &mut [TaskNote], tasks: &[TaskLines])
    ensures { told.new ≡ map (above_in tasks.now) told.old }
{
    for i in 0..told.len() {
        told[i] = above(told[i], tasks);
    }
}

/// A note that puts a task into the class tells when it is there.
fn withdraw(tasks: &mut Vec<TaskLines>, note: TaskNote)
    ensures { tasks.new.items ≡ withdrawn tasks.old.items note }
{
    if is_deadline(note.policy) {
        if let Some(task) = tasks.get_mut(note.task as usize) {
            task.given = None;
        }
    }
}

/// Where a note puts a task into the class, the option does not.
fn withdraw_all(tasks: &mut Vec<TaskLines>, told: &[TaskNote])
    ensures { tasks.new.items ≡ fold withdrawn tasks.old.items told.now }
{
    for note in told {
        withdraw(tasks, *note);
    }
}

/// The place of the first note of a later moment.
fn place_behind(notes: &[TaskNote], moment: u64) -> Option<usize>
    ensures { result ≡ position (λ x. nat_lt moment x.moment) notes.now }
{
    notes.iter().position(|note| note.moment > moment)
}

/// Notes by their moments, with one more behind those of the same moment.
#[tactic(auto, unfolding(crate::specs::Records::with_note))]
fn insert_told(notes: &mut Vec<TaskNote>, told: TaskNote) -> Result<(), AllocError>
    ensures { OnOk result (notes.new.items ≡ with_note told notes.old.items) }
{
    match place_behind(notes, told.moment) {
        Some(place) => notes.insert(place, told)?,
        None => notes.push(told)?,
    }
    Ok(())
}

/// Whether the last kept line says no more than that this CPU idles.
fn idles_already(kept: &[KeptLine], cpu: u32) -> bool
    ensures { result ≡ idles_already cpu kept.now }
{
    match kept.last() {
        Some(last) => match last.event {
            KeptEvent::Idles => last.cpu == cpu,
            _ => false,
        },
        None => false,
    }
}
