//! What stands below the head of a file.

ghost use Rattle.std.specs.Prelude.{◌≡◌};
ghost use Rattle.grub_trace.specs.inside.Bodies.{IsRead};
ghost use Rattle.grub_trace.specs.inside.Heads.{IsHead};
ghost use Rattle.grub_trace.specs.inside.Reading.{IsIndexed};

use crate::body::read_body;
use crate::fault::TraceFault;
use crate::raw::{Head, RawFile};
use crate::tasks::Tasks;
use std::alloc::Global;

/// A head, and what was read below it; before that, `NoMemory`.
#[derive(Drop)]
pub struct Below<'a> {
    pub head: Head<'a>,
    pub file: Result<RawFile, TraceFault>,
}

impl<'a> Below<'a> {
    /// Reads what stands below the head, where all tasks are declared.
    pub(crate) fn read(&mut self, alloc: Global, tasks: &Tasks)
        requires indexed { IsIndexed tasks.now }
        requires head { IsHead self.old.head }
        ensures head { self.new.head ≡ self.old.head }
        ensures read { IsRead tasks.now self.new }
    {
        self.file = read_body(alloc, tasks, &self.head);
    }
}
