//! The sums of a runqueue, event by event: they change by what the event's entity adds.

ghost use Rattle.std.specs.Prelude.{ℕ, List};
ghost use Rattle.trace_data.specs.declared.quantities.Sums.{Sums};
ghost use Rattle.trace_data.specs.declared.probe.Admitted.{Admitted};
ghost use Rattle.kernel_rules.specs.declared.sums.SumsChange.{SumsChange};
ghost use Rattle.kernel_rules.specs.declared.entity.Entity.{Entity};
ghost use Rattle.kernel_rules.specs.declared.charge.ChargeLaw.{ChargeLaw};
ghost use Rattle.trace_data.specs.declared.probe.Enqueued.{Enqueued};
ghost use Rattle.kernel_laws.specs.Summing.{SleepBalances, SaveBalances, MoveBalances, ZeroLagBalances, WakeBalances, RestoreBalances, ReplenishBalances, LeaveBalances, AdmissionBalances, Standing, SumsStay};

/// A waking task that moves is taken off the runqueue that it leaves.
pub fn moves_balance()
    ensures { (e : Entity) → MoveBalances e }
{}

/// At the 0-lag time a task becomes inactive, and where it has ended it is taken off.
pub fn zero_lag_times_balance()
    ensures { (e : Entity) → ZeroLagBalances e }
{}

/// A task that is dequeued with DEQUEUE_SAVE is counted nowhere.
pub fn saves_balance()
    ensures { (e : Entity) → (flags : ℕ) → (on_rq : ℕ) → (clock : ℕ)
        → SaveBalances e flags on_rq clock }
{}

/// A task that blocks stays active up to its 0-lag time, and is inactive at once where that is past.
pub fn sleeps_balance()
    ensures { (e : Entity) → (flags : ℕ) → (on_rq : ℕ) → (clock : ℕ)
        → SleepBalances e flags on_rq clock }
{}

/// A blocked task that wakes is active.
pub fn wakes_balance()
    ensures { (law : ChargeLaw) → (e : Entity) → (l : Enqueued) → WakeBalances law e l }
{}

/// A task that is restored, or comes from another runqueue, is counted here from now on.
pub fn restores_balance()
    ensures { (law : ChargeLaw) → (e : Entity) → (l : Enqueued) → RestoreBalances law e l }
{}

/// Any other enqueue of a task, as at its replenishment, leaves the sums.
pub fn replenishments_balance()
    ensures { (law : ChargeLaw) → (e : Entity) → (l : Enqueued) → ReplenishBalances law e l }
{}

/// Where this_bw and running_bw are the sums over what stands on a runqueue, they stay so at each event that balances.
pub fn sums_stay()
    ensures { (before : List Standing) → (one : Standing) → (behind : List Standing)
        → (sums : Sums) → (change : SumsChange) → (after : Standing)
        → SumsStay before one behind sums change after }
{}

/// A task that leaves the class is counted nowhere.
pub fn leavings_balance()
    ensures { (e : Entity) → (on_rq : ℕ) → (clock : ℕ) → LeaveBalances e on_rq clock }
{}

/// An admission, and a change of a reservation.
pub fn admissions_balance()
    ensures { (e : Entity) → (l : Admitted) → (cpus : ℕ) → AdmissionBalances e l cpus }
{}
