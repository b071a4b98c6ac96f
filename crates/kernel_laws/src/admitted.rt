//! What the admitted tasks take from `extra_bw`.

ghost use Rattle.std.specs.Prelude.{ℕ};
ghost use Rattle.timer_tasks.specs.declared.task.DeadlineTask.{DeadlineTask};
ghost use Rattle.timer_play.specs.States.{State};
ghost use Rattle.kernel_laws.specs.Admitting.{TakenStays};

/// What is taken from `extra_bw` of each CPU is the sum of the admitted bandwidths by the number of CPUs, and stays so as a line makes a
/// task another.
pub fn extra_stays()
    ensures { (n : ℕ) → (before t : DeadlineTask) → (m : State) → TakenStays n before t m }
{}
