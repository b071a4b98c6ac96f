//! The book of GRUB (greedy reclamation of unused bandwidth) over memory of its caller, and the arithmetic without
//! state. It takes no memory, and every call takes any numbers whatever.
//!
//! The memory is two arrays: a struct for each task and one for each runqueue. `open_book` makes a book of the
//! reservations and constants that stand in it; then it is read directly, and `apply` gives the steps of the one-thread
//! book of `grub_book`. The structs are laid out as in C.
//!
//! Moments, runs, runtimes, periods, budgets and deadlines have one unit, which the caller chooses; bandwidths are in
//! 1/2^20. Tasks and runqueues are numbered from 0.
#![tactic(auto)]

mod arithmetic;
mod asked;
mod auditor;
mod batch;
mod calls;
mod checker;
mod codes;
mod exhaustion;
mod first;
mod foreseen;
mod kernel;
mod laws;
mod located;
mod memory;
mod moving;
mod numbers;
mod opening;
mod rebasing;
mod records;
mod steps;

pub use arithmetic::{bandwidth, charge_for, depleted_by, woken_to, zero_lag_of};
pub use asked::{MOVE, NdAsk, NdEvent, NdOp, NdReply};
pub use auditor::audit;
pub use batch::apply_all;
pub use calls::{op_of, plain_reply, reply_of};
pub use checker::{CALL, READING, REBASE, check};
pub use codes::{
    BUDGET_OUT_OF_RANGE, COUNT_OUT_OF_RANGE, DAMAGED, DEADLINE_OVERFLOW, DONE, MOMENT_OUT_OF_RANGE,
    NO_OP, NO_QUEUE, NO_TASK, NOBODY, OVERFULL, PERIOD_OUT_OF_RANGE, QUEUE_OUT_OF_RANGE,
    RUNNING_OUT_OF_RANGE, RUNTIME_OUT_OF_RANGE, STATE_OUT_OF_RANGE, TOO_FAR, TOO_MANY_QUEUES,
    TOO_MANY_TASKS, TOO_SMALL, UEXTRA_OUT_OF_RANGE, UMAX_OUT_OF_RANGE, WRONG_RUNNING_BW,
    WRONG_THIS_BW,
};
pub use exhaustion::exhaustion_of;
pub use first::{Wanted, first_on};
pub use kernel::kernel_charge;
pub use laws::{histories_are_the_books, moves_shift_sums, rebased_histories_go_on};
pub use located::{located_fault, open_fault};
pub use memory::{FLAT_QUEUES_MAX, FLAT_TASKS_MAX, NdRunqueue, NdTask};
pub use moving::MOVED;
pub use numbers::{NdCapacity, NdParams, NdReading, NdServer, capacity_fault, params_fault};
pub use opening::{fault_of_queues, fault_of_tasks, open_book};
pub use rebasing::{REBASED, rebase, rebase_limit};
pub use records::task_of;
pub use steps::apply;
