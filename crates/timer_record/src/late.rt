//! Notes that lines contradict.

ghost use Rattle.std.specs.Prelude.{◌≡◌, position};
ghost use Rattle.timer_record.specs.Kept.{kept_of};
ghost use Rattle.timer_record.specs.Late.{contradicted_at, contradicted_by, contradicted_in, is_from, is_up_to, late_noted, line_by, line_from, passing_by};

use crate::event::KeptLine;
use crate::lines::TaskNote;
use crate::moment::Passing;
use crate::record::{OpenRecord, note_at};
use trace_data::Fixed;

/// A note that puts a task outside the class, and came too late: a line shows the task in it.
#[derive(Clone, Copy)]
pub struct LateNote {
    pub pid: u64,

    /// The moment of the note.
    pub moment: u64,
}

impl OpenRecord {
    /// The note that a line of this moment contradicts: it shows a task in the class, whose notes so far put it outside.
    /// `sched_getattr(2)` was asked too late after a call, and the note tells a later state. None where a note up to that moment is
    /// still to come.
    pub fn late_noted(&self, at: u64, fixed: &Fixed) -> Option<LateNote>
        ensures { result ≡ late_noted at fixed.now (kept_of self.now) }
    {
        if is_up_to(at, note_at(&self.notes, self.come)) {
            None
        } else {
            self.contradicted(fixed)
        }
    }

    /// The number of the first line that is kept from this moment on.
    pub fn line_from(&self, at: u64) -> Option<u64>
        ensures { result ≡ line_from at (kept_of self.now).kept }
    {
        match place_from(&self.lines.kept, at) {
            Some(place) => line_of(self.lines.kept.get(place).copied()),
            None => None,
        }
    }

    fn contradicted(&self, fixed: &Fixed) -> Option<LateNote>
        ensures { result ≡ contradicted_in fixed.now (kept_of self.now) }
    {
        match *fixed {
            Fixed::Woken {
                pid,
                is_deadline,
                ..
            } => self.contradicted_at(is_deadline, pid),
            Fixed::Switched {
                pid,
                is_deadline,
                next_pid,
                next_is_deadline,
                ..
            } => match self.contradicted_at(is_deadline, pid) {
                Some(late) => Some(late),
                None => self.contradicted_at(next_is_deadline, next_pid),
            },
            _ => None,
        }
    }

    fn contradicted_at(&self, is_deadline: bool, pid: u64) -> Option<LateNote>
        ensures { result ≡ contradicted_at is_deadline pid (kept_of self.now) }
    {
        if is_deadline {
            contradicted_by(self.passing_of(self.task_of(pid)), pid)
        } else {
            None
        }
    }

    fn passing_of(&self, task: Option<u32>) -> Option<Passing>
        ensures { result ≡ passing_by task (kept_of self.now) }
    {
        match task {
            Some(task) => self.passing.get(task as usize).copied(),
            None => None,
        }
    }
}

/// The note of a task that is in the class, if it puts it outside.
fn contradicted_by(passing: Option<Passing>, pid: u64) -> Option<LateNote>
    ensures { result ≡ contradicted_by passing pid }
{
    match passing {
        Some(passing) => {
            if passing.is_outside() {
                Some(LateNote {
                    pid,
                    moment: passing.noted,
                })
            } else {
                None
            }
        }
        None => None,
    }
}

/// Whether the moment of a note is at most this one.
fn is_up_to(at: u64, told: Option<TaskNote>) -> bool
    ensures { result ≡ is_up_to at told }
{
    match told {
        Some(told) => told.moment <= at,
        None => false,
    }
}

fn place_from(kept: &[KeptLine], at: u64) -> Option<usize>
    ensures { result ≡ position (is_from at) kept.now }
{
    kept.iter().position(|line| line.at >= at)
}

fn line_of(kept: Option<KeptLine>) -> Option<u64>
    ensures { result ≡ line_by kept }
{
    match kept {
        Some(kept) => Some(kept.line),
        None => None,
    }
}
