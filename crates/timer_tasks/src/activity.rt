//! Where a task's bandwidth is, and what is known of its budget.

ghost use Rattle.std.specs.Prelude.{◌≡◌};
ghost use Rattle.timer_tasks.specs.Activity.{is_awake_of, is_known_of, is_unseen_of};

/// In which sums of its runqueue a task's bandwidth is.
#[derive(Clone, Copy)]
pub enum Activity {
    /// It is awake: in `this_bw` and `running_bw`.
    Contending,

    /// It is blocked before its 0-lag time (`dl_non_contending`): in both.
    NonContending,

    /// It is blocked, and its 0-lag time is past: in `this_bw`.
    Inactive,

    /// In none.
    Away,
}

/// Whether budget and deadline of a task are known.
#[derive(Clone, Copy)]
pub enum Knowledge {
    Known,

    /// No line has shown the task.
    Unseen,

    /// The record does not tell.
    Unknown,

    /// The kernel may have answered a wake either way.
    Edge,

    /// Lines are missing.
    Gap,
}

/// Whether the task is awake.
pub fn is_awake(activity: Activity) -> bool
    ensures { result ≡ is_awake_of activity }
{
    match activity {
        Activity::Contending => true,
        Activity::NonContending | Activity::Inactive | Activity::Away => false,
    }
}

/// Whether budget and deadline are known.
pub(crate) fn is_known(knowledge: Knowledge) -> bool
    ensures { result ≡ is_known_of knowledge }
{
    match knowledge {
        Knowledge::Known => true,
        Knowledge::Unseen | Knowledge::Unknown | Knowledge::Edge | Knowledge::Gap => false,
    }
}

/// Whether no line has shown the task.
pub(crate) fn is_unseen(knowledge: Knowledge) -> bool
    ensures { result ≡ is_unseen_of knowledge }
{
    match knowledge {
        Knowledge::Unseen => true,
        Knowledge::Known | Knowledge::Unknown | Knowledge::Edge | Knowledge::Gap => false,
    }
}
