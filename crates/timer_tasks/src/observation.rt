//! What the rules give beside what the kernel did.

ghost use Rattle.std.specs.Prelude.{◌≡◌};
ghost use Rattle.timer_tasks.specs.Observations.{answer_by, block_answer_of, block_moments_of, distance_of, late_by, next_period_of, replenish_moments_of, zero_lag_moment_of};

use crate::activity::{Knowledge, is_awake, is_unseen};
use crate::task::{DeadlineTask, ends};
use kernel_rules::zero_lag;
use trace_data::{Stop, Sums};

/// Which timer is observed.
#[derive(Clone, Copy)]
pub enum TimerKind {
    /// The 0-lag timer, at a block.
    Block,

    /// The replenishment timer, at its start.
    Replenish,
}

/// What an observation comes to.
#[derive(Clone, Copy)]
pub enum ObservedAnswer {
    Agrees,
    Differs,

    /// The task ends.
    End,

    /// Budget and deadline are not known.
    Unknown,

    /// The kernel may have answered a wake either way.
    Edge,

    /// Lines are missing.
    Gap,
}

/// A timer as the rules give it and as the kernel set it.
#[derive(Clone, Copy)]
pub struct Observation {
    pub line: u64,

    /// The moment of the line.
    pub at: u64,

    /// The task's runqueue.
    pub cpu: u32,
    pub task: u32,
    pub kind: TimerKind,
    pub predicted: u64,

    /// When the kernel's timer is to fire; none where it started none.
    pub kernel: Option<u64>,

    /// How far the prediction is after the kernel's moment; without a timer, how far it is after the last charge.
    pub difference: i64,
    pub runtime: i64,
    pub deadline: u64,

    /// Of the task's runqueue.
    pub sums: Sums,
    pub answer: ObservedAnswer,
}

/// A moment as it is predicted, as the kernel has it, and their difference.
#[derive(Clone, Copy)]
pub struct Moments {
    pub predicted: u64,
    pub kernel: Option<u64>,
    pub difference: i64,
}

/// How far one moment is after another.
fn distance(a: u64, b: u64) -> i64
    ensures { result ≡ distance_of a b }
{
    a.wrapping_sub(b).cast_signed()
}

/// The 0-lag time of a task (`task_non_contending`): its deadline less the time in which the reservation gives the budget.
pub fn zero_lag_moment(task: DeadlineTask) -> u64
    ensures { result ≡ zero_lag_moment_of task }
{
    zero_lag(task.entity, 0).cast_unsigned()
}

/// When the replenishment timer of a task is to fire (`start_dl_timer`): at its next period.
pub fn next_period(task: DeadlineTask) -> u64
    ensures { result ≡ next_period_of task }
{
    let parameters = task.entity.parameters;
    task.entity
        .budget
        .deadline
        .wrapping_sub(parameters.dl_deadline)
        .wrapping_add(parameters.dl_period)
}

/// What a difference comes to, for a task of which so much is known.
pub fn answer_of(knowledge: Knowledge, difference: i64, within: u64) -> ObservedAnswer
    ensures { result ≡ answer_by knowledge difference within }
{
    match knowledge {
        Knowledge::Unseen | Knowledge::Unknown => ObservedAnswer::Unknown,
        Knowledge::Edge => ObservedAnswer::Edge,
        Knowledge::Gap => ObservedAnswer::Gap,
        Knowledge::Known => {
            if difference.unsigned_abs() <= within {
                ObservedAnswer::Agrees
            } else {
                ObservedAnswer::Differs
            }
        }
    }
}

/// The 0-lag times at a block of this moment. The kernel's timer is relative, and its base is read later than the charge: by as much as
/// the line that starts it is behind the charge's.
pub fn block_moments(task: DeadlineTask, at: u64) -> Moments
    ensures { result ≡ block_moments_of task at }
{
    let charged = task.charged.unwrap_or(at);
    let zero_lag = zero_lag_moment(task);
    match task.armed {
        Some(armed) => {
            let predicted = zero_lag.wrapping_add(armed.at.wrapping_sub(charged));
            Moments {
                predicted,
                kernel: Some(armed.expires),
                difference: distance(predicted, armed.expires),
            }
        }
        None => Moments {
            predicted: zero_lag,
            kernel: None,
            difference: distance(zero_lag, charged).max(0),
        },
    }
}

/// A charge that is farther from the start of a replenishment timer is not that of the same moment: its line is missing.
const LATE: u64 = 1_000_000;

/// How much later than the charge the base of a replenishment timer was read; of a task that is asleep no charge tells it.
fn late(task: DeadlineTask, at: u64) -> u64
    ensures { result ≡ late_by task at }
{
    let late = at.wrapping_sub(task.charged.unwrap_or(at));
    if is_awake(task.activity) && late < LATE {
        late
    } else {
        0
    }
}

/// The moments at a start of a replenishment timer.
pub fn replenish_moments(task: DeadlineTask, at: u64, expires: u64) -> Moments
    ensures { result ≡ replenish_moments_of task at expires }
{
    let predicted = next_period(task).wrapping_add(late(task, at));
    Moments {
        predicted,
        kernel: Some(expires),
        difference: distance(predicted, expires),
    }
}

/// What the block of a task comes to: an end is not compared, and one that is blocked already has lines missing.
pub fn block_answer(task: DeadlineTask, stop: Stop, difference: i64, within: u64) -> ObservedAnswer
    ensures { result ≡ block_answer_of task stop difference within }
{
    if ends(stop) {
        ObservedAnswer::End
    } else if is_unseen(task.knowledge) || is_awake(task.activity) {
        answer_of(task.knowledge, difference, within)
    } else {
        ObservedAnswer::Gap
    }
}
