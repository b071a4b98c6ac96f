//! What ties the time line of files to their run.

ghost use Rattle.std.specs.Prelude.{◌≡◌, ◌≤◌, ℕ, List, [], ◌∷◌, length, map};
ghost use Rattle.grub_book.specs.declared.event.Reading.{Reading};
ghost use Rattle.grub_plan.specs.Limits.{PlanFits};
ghost use Rattle.grub_plan.specs.Plans.{PlanView};
ghost use Rattle.grub_plan.specs.declared.entry.Report.{Report};
ghost use Rattle.grub_timeline.specs.TimeLines.{AreWithin, IsTimeLine, entries_of as entries_played};
ghost use Rattle.grub_timeline.specs.declared.told.ToldEntry.{ToldEntry};
ghost use Rattle.grub_workers.specs.Runs.{IsRun, entries_of as entries_reported};

/// With one file, the entries of its time line are those of each run of it with a try or more.
pub fn one_file_is_played_as_it_runs()
    ensures { (plan : PlanView) (told : List ToldEntry) (closing last : List Reading) (tries : ℕ)
        (reports : List Report) → PlanFits plan → length plan.scripts ≡ 1
        → IsTimeLine plan told closing → AreWithin plan.setup told → 1 ≤ tries
        → IsRun plan tries reports last
        → map entries_reported reports ≡ entries_played told ∷ [] }
{}
