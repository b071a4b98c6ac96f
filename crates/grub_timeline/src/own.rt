//! The steps of one task.

use crate::book_steps::{Change, Step};
use std::alloc::{AllocError, Global};

/// The steps of one task, in order. It is refused where the allocator refused.
pub fn steps_of_task(alloc: Global, t: u32, steps: &[Step]) -> Result<Vec<Step>, AllocError> {
    steps
        .iter()
        .copied()
        .filter(|x| is_change_of(t, x.change))
        .collect(alloc)
}

fn is_change_of(t: u32, change: Option<Change>) -> bool {
    match change {
        Some(change) => change.task == t,
        None => false,
    }
}
