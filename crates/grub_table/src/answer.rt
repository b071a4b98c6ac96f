//! What `start` and `finish` answer.

use crate::claim::Claim;
use crate::pass::Pass;
use grub_book::Reply;

/// What a call saw that found its task busy: the task's word with its claim bit set, or a word that had changed from the one that the call had loaded.
#[derive(Clone, Copy, PartialEq, Eq, Debug)]
pub enum Sighting {
    Claimed { word: u64 },
    Changed { loaded: u64, found: u64 },
}

/// The answer of `start`: the reply, a claim on the task, or that another pass has the task.
pub enum Started {
    Answered(Pass, Reply),
    Held(Claim),
    Busy(Pass, Sighting),
}

/// The answer of `finish`: the reply, or the claim as it was, where all tries were lost.
pub enum Finished {
    Done(Pass, Reply),
    Held(Claim),
}
