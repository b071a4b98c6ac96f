//! Budget: a task runs on a budget above 0, which is at most its runtime (Abeni and Buttazzo 1998).

ghost use Rattle.std.specs.Prelude.{◌↔◌, IsTrue};
ghost use Rattle.law_findings.specs.Budget.{HasBudget, IsWithin};

/// Whether a budget is left, in nanoseconds.
pub fn has_budget(budget: i64) -> bool
    ensures { IsTrue result ↔ HasBudget budget }
{
    budget > 0
}

/// Whether a budget is at most a runtime, in nanoseconds.
pub fn is_within(budget: i64, dl_runtime: u64) -> bool
    ensures { IsTrue result ↔ IsWithin budget dl_runtime }
{
    i128::from(budget) <= i128::from(dl_runtime)
}
