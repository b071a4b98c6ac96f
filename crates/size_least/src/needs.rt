//! The law of needs.

ghost use Rattle.std.specs.Prelude.{◌≡◌, ◌≤◌, ◌<◌, ◌↔◌, ℕ, nat_lt, List, [], count_by};
ghost use Rattle.size_least.specs.Span.{span};
ghost use Rattle.size_least.specs.Jobs.{late_of};
ghost use Rattle.size_least.specs.declared.job.Job.{Job};
ghost use Rattle.size_least.specs.Needs.{AllWork, need_of, needs_after};

/// Work is done in time exactly with the runtimes from its need on, so the needs of the jobs are the whole curve of late jobs: with a
/// runtime as many are late as need more.
pub fn needs_are_the_curve_of_late_jobs()
    ensures need { (period window work runtime : ℕ) → 0 < work → 1 ≤ runtime → runtime ≤ period
        → (span runtime period work ≤ window) ↔ (need_of period window work ≤ runtime) }
    ensures curve { (period runtime : ℕ) (jobs : List Job) → 1 ≤ runtime → runtime ≤ period
        → AllWork jobs
        → late_of runtime period jobs
        ≡ count_by (λ n. nat_lt runtime n) (needs_after period [] jobs) }
{}
