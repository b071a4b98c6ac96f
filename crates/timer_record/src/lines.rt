//! What a record has: its lines that bear on timers, its tasks, and whose its timers are.

ghost use Rattle.std.specs.Prelude.{◌≡◌};
ghost use Rattle.timer_record.specs.Votes.{more_of, voted_by};
ghost use Rattle.timer_record.specs.Given.{policy_above_of};
ghost use Rattle.timer_record.specs.Passing.{first_by};

use crate::event::KeptLine;
use crate::vote::Vote;
use trace_data::{Parameters, Policy};

/// A `dl_task_timer` is a task's where it is set less than this ahead, mostly.
const SOON: u64 = 300_000_000;

/// A task that has a reservation somewhere in the record.
#[derive(Clone, Copy)]
pub struct TaskLines {
    pub pid: u64,

    /// What an option says that it reserves.
    pub given: Option<Parameters>,

    /// The `inactive_task_timer` that starts most often while it runs.
    pub zero_lag_timer: Vote,
}

/// Of which kind the first line of a timer is.
#[derive(Clone, Copy, PartialEq, Eq)]
pub enum FirstLine {
    Start,
    Another,
}

/// An address at which there are timers: memory of a task that has ended may become a later task's.
#[derive(Clone, Copy)]
pub struct AddressLines {
    pub first: Option<FirstLine>,

    /// How often a `dl_task_timer` is started there; right after the charge of a task of the class; less than 0.3 s ahead.
    pub starts: u64,
    pub after_charge: u64,
    pub soon: u64,

    /// The CPU whose lines start it.
    pub cpu: Vote,
}

impl AddressLines {
    ghost use Rattle.timer_record.specs.Timers.{is_of_task_by, unknown_address, with_line_of, with_start_of};

    /// An address without a line.
    pub fn new() -> AddressLines
        ensures { result ≡ unknown_address }
    {
        AddressLines {
            first: None,
            starts: 0,
            after_charge: 0,
            soon: 0,
            cpu: Vote::new(),
        }
    }

    /// Whether a `dl_task_timer` there is a task's; a fair server's is mostly started by no charge, and set far ahead.
    pub fn is_of_task(self) -> bool
        ensures { result ≡ is_of_task_by self }
    {
        self.after_charge > self.starts / 2 || self.soon > self.starts / 2
    }

    /// The address with one more line, which is no start.
    pub fn with_line(self) -> AddressLines
        ensures { result ≡ with_line_of self }
    {
        AddressLines {
            first: Some(self.first.unwrap_or(FirstLine::Another)),
            ..self
        }
    }

    /// The address with one more start of a `dl_task_timer`: on this CPU, so far ahead, after the charge of this task.
    pub fn with_start(self, cpu: u32, ahead: u64, charged: Option<u32>) -> AddressLines
        ensures { result ≡ with_start_of self cpu ahead charged }
    {
        AddressLines {
            first: Some(self.first.unwrap_or(FirstLine::Start)),
            starts: self.starts.saturating_add(1),
            after_charge: more(self.after_charge, charged.is_some()),
            soon: more(self.soon, ahead < SOON),
            cpu: self.cpu.with(cpu),
        }
    }
}

/// A timer: of one task, or of one fair server.
#[derive(Clone, Copy)]
pub struct TimerLines {
    /// The number of its address.
    pub address: u32,

    /// The task whose charge is the line before its starts, or whose wake is the line after.
    pub task: Vote,
}

impl TimerLines {
    ghost use Rattle.timer_record.specs.Timers.{started_after, unknown_timer, with_wake_of};

    /// A timer without a line, at the address of this number.
    pub fn new(address: u32) -> TimerLines
        ensures { result ≡ unknown_timer address }
    {
        TimerLines {
            address,
            task: Vote::new(),
        }
    }

    /// The timer with one more start, after the charge of this task.
    pub fn with_start(self, charged: Option<u32>) -> TimerLines
        ensures { result ≡ started_after self charged }
    {
        TimerLines {
            task: with_some(self.task, charged),
            ..self
        }
    }

    /// The timer whose start the wake of this task follows.
    pub fn with_wake(self, task: u32) -> TimerLines
        ensures { result ≡ with_wake_of self task }
    {
        TimerLines {
            task: self.task.with(task),
            ..self
        }
    }
}

/// A count with one more where that is so.
fn more(count: u64, is_one: bool) -> u64
    ensures { result ≡ more_of count is_one }
{
    if is_one {
        count.saturating_add(1)
    } else {
        count
    }
}

/// A vote with one more for a candidate, where there is one.
fn with_some(vote: Vote, candidate: Option<u32>) -> Vote
    ensures { result ≡ voted_by vote candidate }
{
    match candidate {
        Some(candidate) => vote.with(candidate),
        None => vote,
    }
}

/// A reservation that an option gives to a task.
#[derive(Clone, Copy)]
pub struct GivenReservation {
    pub pid: u64,
    pub parameters: Parameters,
}

/// What a note tells of a task to which an option may give a reservation: that stands above the note's.
pub(crate) fn policy_above(policy: Policy, given: Option<Parameters>) -> Policy
    ensures { result ≡ policy_above_of policy given }
{
    match (policy, given) {
        (Policy::Deadline(_), Some(given)) => Policy::Deadline(given),
        _ => policy,
    }
}

/// What a note tells of a task, and when the kernel did so.
#[derive(Clone, Copy)]
pub struct TaskNote {
    pub task: u32,

    /// The moment of the note; none where the task was there at the start.
    pub at: Option<u64>,

    /// The moment at which the kernel took the task's change.
    pub moment: u64,

    /// The task itself made the call.
    pub is_by_itself: bool,
    pub cpu: u32,
    pub policy: Policy,
}

/// A task of the class of which neither a note nor an option tells: it has a 0-lag timer, so it is not merely boosted.
#[derive(Clone, Copy)]
pub struct Unlisted {
    /// The line of its first wake.
    pub line: u64,
    pub pid: u64,
}

/// The lines of a record.
#[derive(Drop)]
pub struct KeptLines {
    pub tasks: Vec<TaskLines>,
    pub addresses: Vec<AddressLines>,
    pub timers: Vec<TimerLines>,

    /// What notes tell, by the moment of the change.
    pub told: Vec<TaskNote>,
    pub kept: Vec<KeptLine>,

    /// The moment of the first line.
    pub begins: Option<u64>,

    /// And of the last.
    pub ends: u64,

    /// How many lines there are, with those that are not kept.
    pub count: u64,

    /// How many lines are about a task of the class that has no reservation: it is boosted by a mutex, or not told of.
    pub boosted: u64,

    /// Of the tasks of the class that have a 0-lag timer and no reservation, the one that woke first.
    pub unlisted: Option<Unlisted>,
}

/// Of two such tasks, the one that woke first.
pub(crate) fn first_of(one: Option<Unlisted>, other: Unlisted) -> Unlisted
    ensures { result ≡ first_by one other }
{
    match one {
        Some(one) if one.line <= other.line => one,
        _ => other,
    }
}
