//! The rules of Linux from 6.5 on, held to those of Documentation/scheduler/sched-deadline.rst.

ghost use Rattle.std.specs.Prelude.{ℕ};
ghost use Rattle.kernel_rules.specs.declared.charge.ChargedRunqueue.{ChargedRunqueue};
ghost use Rattle.kernel_rules.specs.declared.entity.Entity.{Entity};
ghost use Rattle.trace_data.specs.declared.quantities.Donor.{Donor};
ghost use Rattle.kernel_laws.specs.Waking.{IsBelow18Minutes, AnswersAlike};
ghost use Rattle.kernel_laws.specs.Replenishing.{RechargesLeast};
ghost use Rattle.kernel_laws.specs.ZeroLag.{ZeroLagIsExact};
ghost use Rattle.kernel_laws.specs.Rounding.{IsOrdinary, RateIsBetween, ChargesNoMore, ChargesHardlyLess, ChargesAlike};

/// A task that reclaims is charged at its own bandwidth at least, and at what is left to SCHED_DEADLINE at most.
pub fn rates_are_between()
    ensures { (e : Entity) → (r : ChargedRunqueue) → (nanos : ℕ) → IsOrdinary e r nanos
        → RateIsBetween e r }
{}

/// The kernel never takes more from a budget than the documentation says.
pub fn charges_are_no_more()
    ensures { (e : Entity) → (r : ChargedRunqueue) → (nanos : ℕ) → IsOrdinary e r nanos
        → ChargesNoMore e r nanos }
{}

/// And it takes hardly less.
pub fn charges_are_hardly_less()
    ensures { (e : Entity) → (r : ChargedRunqueue) → (nanos : ℕ) → IsOrdinary e r nanos
        → ChargesHardlyLess e r nanos }
{}

/// Without a limit on SCHED_DEADLINE both take the same.
pub fn charges_are_alike()
    ensures { (e : Entity) → (r : ChargedRunqueue) → (nanos : ℕ) → IsOrdinary e r nanos
        → ChargesAlike e r nanos }
{}

/// The kernel's test of a wake and the documentation's answer alike, but close about their border.
pub fn wakes_answer_alike()
    ensures { (by : Donor) → (budget : ℕ) → (span : ℕ) → IsBelow18Minutes by budget span
        → AnswersAlike by budget span }
{}

/// A replenishment adds the runtime as often as brings the budget above 0, and no more often.
pub fn recharges_are_least()
    ensures { (runtime : ℕ) → (overdrawn : ℕ) → RechargesLeast runtime overdrawn }
{}

/// The moment for which a block arms its timer is the exact one, where the product of budget and period is one of 64 bits.
pub fn zero_lag_times_are_exact()
    ensures { (e : Entity) → (clock : ℕ) → ZeroLagIsExact e clock }
{}
