//! The law of sizing over plays.

ghost use Rattle.std.specs.Prelude.{◌≡◌, ◌≤◌, ℕ, List, false};
ghost use Rattle.grub_book.specs.Bandwidth.{Reservation};
ghost use Rattle.size_least.specs.Jobs.{is_done_by};
ghost use Rattle.size_least.specs.Needs.{AllWork};
ghost use Rattle.size_least.specs.declared.job.Job.{Job};
ghost use Rattle.size_least.specs.Plays.{EndInTime, EndsLate, HaveRoom, PlaysFresh, Run};

/// In each play of a record's jobs from one of them on, each job that is in time by the definition ends by its due moment. The
/// server is that of `grub_book`: it wakes at a release that finds the task blocked, is refilled when its budget is used up, and
/// each run pays at most what it ran. Nothing is asked of other tasks, of throttling or of reclaiming but that each budget can
/// be had by its deadline.
pub fn in_time_whatever_else_runs()
    ensures { (p : Reservation) (past jobs : List Job) (runs : List (List Run)) (ends : List ℕ)
        → 1 ≤ p.runtime → p.runtime ≤ p.period → PlaysFresh p jobs runs ends
        → EndInTime p past jobs ends }
{}

/// A job that is not in time by the definition is late in some play: from one of the jobs up to it on, with each budget as late as
/// may be. `past` are the jobs up to it, the newest first.
pub fn late_in_some_play()
    ensures { (p : Reservation) (due : ℕ) (past : List Job)
        → 1 ≤ p.runtime → p.runtime ≤ p.period → AllWork past → HaveRoom p 0 past
        → is_done_by p.runtime p.period due 0 past ≡ false → EndsLate p due past }
{}
