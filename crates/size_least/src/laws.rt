//! Laws of sizing, over all records.

ghost use Rattle.std.specs.Prelude.{◌≡◌, ◌≤◌, ◌<◌, ◌+◌, ◌↔◌, ℕ, true, List, IsTrue};
ghost use Rattle.size_least.specs.Span.{span};
ghost use Rattle.size_least.specs.Jobs.{IsDoneBy, is_done_by, late_of};
ghost use Rattle.size_least.specs.declared.job.Job.{Job};

/// What is in time with a runtime is in time with each greater one, so a search for the least finds it.
pub fn more_runtime_is_never_later()
    ensures span { (q r period work : ℕ) → 1 ≤ q → q ≤ r → r ≤ period
        → span r period work ≤ span q period work }
    ensures in_time { (q r period due : ℕ) (past : List Job) → 1 ≤ q → q ≤ r → r ≤ period
        → is_done_by q period due 0 past ≡ true → is_done_by r period due 0 past ≡ true }
    ensures late { (q r period : ℕ) (jobs : List Job) → 1 ≤ q → q ≤ r → r ≤ period
        → late_of r period jobs ≤ late_of q period jobs }
{}

/// A job is in time where, from each job up to it on, all work up to it is done by its due moment.
pub fn jobs_are_in_time_as_told()
    ensures { (runtime period due : ℕ) (past : List Job)
        → IsTrue (is_done_by runtime period due 0 past) ↔ IsDoneBy runtime period due past }
{}
