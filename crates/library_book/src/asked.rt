//! What is asked of a book, and what it answers.

/// The kind of an op that moves a ready task to another runqueue.
pub const MOVE: u32 = 9;

/// What is asked for a task.
#[repr(C)]
#[derive(Clone, Copy, Debug, PartialEq, Eq)]
pub struct NdOp {
    /// 1 join, 2 wake, 3 block, 4 leave, 5 timer, 6 exit, 7 charge, 8 retune, 9 move.
    pub kind: u32,

    /// The runqueue of a join, wake, block, charge and move, the ticket of a timer, the runtime of a retune.
    pub a: u32,

    /// The moment of a join, wake, block and timer, the run of a charge, the period of a retune.
    pub b: u32,
}

/// What is answered. A kind below 101 refuses, and nothing is written.
#[repr(C)]
#[derive(Clone, Copy, Debug, PartialEq, Eq)]
pub struct NdReply {
    /// Which reply: from 101 on granted, 9 to 21 refused by the book, 70 no such task, 71 no such op, 72 no book, 74 a rebase
    /// too far.
    pub kind: u32,

    /// The ticket of a block that waits, the runqueue that a leave or a move left, that of the refusals 11 and 12, or how often a charge
    /// recharged the budget.
    pub number: u32,

    /// What is left of the budget, after a join, a wake and a charge.
    pub budget: u32,

    /// The deadline after a join, a wake and a charge; the 0-lag time of a block that waits and of an early timer.
    pub deadline: u32,

    /// What a charge took from the budget.
    pub charged: u64,
}

/// An op that is asked for a task.
#[repr(C)]
#[derive(Clone, Copy, Debug, PartialEq, Eq)]
pub struct NdAsk {
    pub task: u32,
    pub op: NdOp,
}

/// An event of a recorded history: a call with its reply, a reading, or a rebase with its reply.
#[repr(C)]
#[derive(Clone, Copy, Debug, PartialEq, Eq)]
pub struct NdEvent {
    /// 1 a call, 2 a reading, 3 a rebase.
    pub kind: u32,

    /// Who called or read. It is not looked at.
    pub pass: u32,

    /// The task of a call, the runqueue of a reading, by how much a rebase moves the origin.
    pub number: u32,

    /// What a call asked.
    pub op: NdOp,

    /// What a reading gave, in 1/2^20.
    pub running_bw: u32,
    pub this_bw: u32,

    /// What a call or a rebase was answered.
    pub reply: NdReply,
}
