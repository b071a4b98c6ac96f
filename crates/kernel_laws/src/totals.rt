//! total_bw of a root domain, event by event: it moves by what the event's task has reserved.

ghost use Rattle.std.specs.Prelude.{ℕ, List};
ghost use Rattle.trace_data.specs.declared.probe.Admitted.{Admitted};
ghost use Rattle.trace_data.specs.declared.probe.Enqueued.{Enqueued};
ghost use Rattle.kernel_rules.specs.declared.charge.ChargeLaw.{ChargeLaw};
ghost use Rattle.kernel_rules.specs.declared.entity.Entity.{Entity};
ghost use Rattle.kernel_rules.specs.declared.sums.SumsChange.{SumsChange};
ghost use Rattle.kernel_laws.specs.Totals.{AdmissionMovesTotal, LeaveMovesTotal, OthersKeepTotal, Reserving, SleepMovesTotal, TotalStays, ZeroLagMovesTotal};

/// An admission, and a change of a reservation.
pub fn admissions_move_total()
    ensures { (e : Entity) → (l : Admitted) → (room : ℕ) → AdmissionMovesTotal e l room }
{}

/// A task that blocks, and one that ends.
pub fn sleeps_move_total()
    ensures { (e : Entity) → (flags : ℕ) → (on_rq : ℕ) → (clock : ℕ)
        → SleepMovesTotal e flags on_rq clock }
{}

/// At the 0-lag time a task that has left the class or has ended gives its bandwidth back.
pub fn zero_lag_times_move_total()
    ensures { (e : Entity) → ZeroLagMovesTotal e }
{}

/// A task leaves the class. One that sleeps with its 0-lag time past leaves its bandwidth in total_bw (docs/KERNEL.md, "A task that is put
/// out of the class while it sleeps").
pub fn leavings_move_total()
    ensures { (e : Entity) → (on_rq : ℕ) → (clock : ℕ) → LeaveMovesTotal e on_rq clock }
{}

/// Enqueues, other dequeues and moves keep it.
pub fn others_keep_total()
    ensures { (law : ChargeLaw) → (e : Entity) → (l : Enqueued) → (flags : ℕ) → (on_rq : ℕ)
        → (clock : ℕ) → OthersKeepTotal law e l flags on_rq clock }
{}

/// Where total_bw is the sum of what is reserved, it stays so at each event that moves it by what its task has reserved.
pub fn total_stays()
    ensures { (before : List Reserving) → (one : Reserving) → (behind : List Reserving)
        → (total : ℕ) → (change : SumsChange) → (after : Reserving)
        → TotalStays before one behind total change after }
{}
