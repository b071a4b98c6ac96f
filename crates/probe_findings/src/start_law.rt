//! The law of starts, that `this_bw` of a runqueue begins with the bandwidth of its fair server, is asked where no task is older than
//! the record.

ghost use Rattle.std.specs.Prelude.{◌≡◌};
ghost use Rattle.probe_findings.specs.Start.{is_older, nothing_seen, shown_elsewhere, shown_in_class, with_admission};

/// What lines have shown of a task.
#[derive(Clone, Copy)]
pub struct TaskSeen {
    pub is_admitted: bool,

    /// In the class, before it was admitted.
    pub is_shown_first: bool,

    /// In another class, or with SCHED_FLAG_SUGOV.
    pub is_of_another_class: bool,
}

/// Of a task that no line has shown.
pub fn nothing_seen() -> TaskSeen
    ensures { result ≡ nothing_seen }
{
    TaskSeen {
        is_admitted: false,
        is_shown_first: false,
        is_of_another_class: false,
    }
}

/// Whether it is older than the record.
pub fn is_older(seen: TaskSeen) -> bool
    ensures { result ≡ is_older seen }
{
    seen.is_shown_first && !seen.is_of_another_class
}

/// It is admitted.
pub fn with_admission(seen: TaskSeen) -> TaskSeen
    ensures { result ≡ with_admission seen }
{
    TaskSeen {
        is_admitted: true,
        ..seen
    }
}

/// A line shows it in the class.
pub fn shown_in_class(seen: TaskSeen) -> TaskSeen
    ensures { result ≡ shown_in_class seen }
{
    TaskSeen {
        is_shown_first: seen.is_shown_first || !seen.is_admitted,
        ..seen
    }
}

/// A line shows that it is of another class, or one of schedutil's threads.
pub fn shown_elsewhere(seen: TaskSeen) -> TaskSeen
    ensures { result ≡ shown_elsewhere seen }
{
    TaskSeen {
        is_of_another_class: true,
        ..seen
    }
}
