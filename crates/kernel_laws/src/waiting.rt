//! A throttled task waits for its replenishment timer, function by function of kernel/sched/deadline.c.

ghost use Rattle.std.specs.Prelude.{ℕ, Bool};
ghost use Rattle.trace_data.specs.declared.probe.Enqueued.{Enqueued};
ghost use Rattle.kernel_rules.specs.declared.charge.ChargeLaw.{ChargeLaw};
ghost use Rattle.kernel_rules.specs.declared.entity.Entity.{Entity};
ghost use Rattle.kernel_laws.specs.Waiting.{ChargeThrottles, ChargeWaits, DequeueWaits, EnqueueWaits, ReturnWaits, TimerWaits};

/// A charge that throttles a task arms its timer, or enqueues the task again at once.
pub fn charges_wait()
    ensures { (e : Entity) → (clock : ℕ) → (has_run : Bool) → ChargeWaits e clock has_run }
{}

/// A charge that uses the budget up throttles the task.
pub fn charges_throttle()
    ensures { (e : Entity) → (clock : ℕ) → ChargeThrottles e clock }
{}

/// An enqueue keeps the timer of a throttled task, or arms it.
pub fn enqueues_wait()
    ensures { (law : ChargeLaw) → (e : Entity) → (l : Enqueued) → EnqueueWaits law e l }
{}

/// The enqueue of a replenishment leaves no task throttled without its timer.
pub fn returns_wait()
    ensures { (law : ChargeLaw) → (e : Entity) → (l : Enqueued) → ReturnWaits law e l }
{}

/// A dequeue keeps the timer of a throttled task.
pub fn dequeues_wait()
    ensures { (e : Entity) → (flags : ℕ) → (on_rq : ℕ) → (clock : ℕ)
        → DequeueWaits e flags on_rq clock }
{}

/// The timer of a blocked task of the class, whom nobody boosts, replenishes it.
pub fn timers_wait()
    ensures { (e : Entity) → TimerWaits e }
{}
