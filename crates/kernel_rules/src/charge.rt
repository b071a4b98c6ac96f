//! What a run takes from a budget.

ghost use Rattle.std.specs.Prelude.{◌≡◌};
ghost use Rattle.kernel_rules.specs.Charge.{least_of, top_of, charging_of, rate_of, cost_of, scaled_of};

use crate::entity::Entity;
use crate::flags::{BW_UNIT, RECLAIM, has};
use trace_data::Sums;

/// Whose arithmetic.
#[derive(Clone, Copy)]
pub enum ChargeLaw {
    /// Linux before 6.5: the own bandwidth is scaled, and a whole processor shared.
    LinuxBefore65,

    /// Linux from 6.5 on: `max_bw` of a processor is shared, and the rate scaled.
    LinuxFrom65,

    /// Documentation/scheduler/sched-deadline.rst: the rate by one exact division.
    Documentation,
}

/// What a charge reads of its runqueue.
#[derive(Clone, Copy)]
pub struct ChargedRunqueue {
    pub sums: Sums,
    pub max_bw: u64,

    /// In units of 2^-8.
    pub bw_ratio: u64,
}

/// How a run is charged.
#[derive(Clone, Copy, PartialEq, Eq)]
pub enum Charge {
    /// Without SCHED_FLAG_RECLAIM.
    InFull,

    /// By the entity's own bandwidth, since others leave less.
    ByItsBandwidth,

    /// By what the inactive and the extra bandwidth leave.
    ByWhatIsLeft,
}

/// The bandwidth that an entity is charged by at least.
fn least(law: ChargeLaw, entity: Entity, runqueue: ChargedRunqueue) -> u64
    ensures { result ≡ least_of law entity runqueue }
{
    match law {
        ChargeLaw::LinuxBefore65 => entity.dl_bw.wrapping_mul(runqueue.bw_ratio) / 256,
        ChargeLaw::LinuxFrom65 | ChargeLaw::Documentation => entity.dl_bw,
    }
}

/// The bandwidth that is shared.
fn top(law: ChargeLaw, runqueue: ChargedRunqueue) -> u64
    ensures { result ≡ top_of law runqueue }
{
    match law {
        ChargeLaw::LinuxBefore65 => BW_UNIT,
        ChargeLaw::LinuxFrom65 | ChargeLaw::Documentation => runqueue.max_bw,
    }
}

/// How a run is charged (the test of `grub_reclaim`).
#[tactic(auto, unfolding(crate::specs::Charge::charging_of))]
pub fn charging(law: ChargeLaw, entity: Entity, runqueue: ChargedRunqueue) -> Charge
    ensures { result ≡ charging_of law entity runqueue }
{
    if !has(entity.parameters.flags, RECLAIM) {
        return Charge::InFull;
    }
    let sums = runqueue.sums;
    let inactive = sums.this_bw.wrapping_sub(sums.running_bw);
    let others = top(law, runqueue).wrapping_sub(least(law, entity, runqueue));
    if inactive.wrapping_add(sums.extra_bw) > others {
        Charge::ByItsBandwidth
    } else {
        Charge::ByWhatIsLeft
    }
}

/// The rate of a charge with the flag, in units of 2^-20, before it is scaled.
fn rate(law: ChargeLaw, entity: Entity, runqueue: ChargedRunqueue, charge: Charge) -> u64
    ensures { result ≡ rate_of law entity runqueue charge }
{
    match charge {
        Charge::InFull => BW_UNIT,
        Charge::ByItsBandwidth => least(law, entity, runqueue),
        Charge::ByWhatIsLeft => {
            let sums = runqueue.sums;
            let inactive = sums.this_bw.wrapping_sub(sums.running_bw);
            top(law, runqueue)
                .wrapping_sub(inactive)
                .wrapping_sub(sums.extra_bw)
        }
    }
}

/// What a run of `nanos` takes from the budget (`grub_reclaim`): all of it without SCHED_FLAG_RECLAIM.
#[tactic(auto, unfolding(crate::specs::Charge::cost_of))]
pub fn cost(law: ChargeLaw, entity: Entity, runqueue: ChargedRunqueue, nanos: u64) -> u64
    ensures { result ≡ cost_of law entity runqueue nanos }
{
    let charge = charging(law, entity, runqueue);
    let rate = rate(law, entity, runqueue, charge);
    match charge {
        Charge::InFull => nanos,
        Charge::ByItsBandwidth | Charge::ByWhatIsLeft => { scaled(law, runqueue, rate, nanos) }
    }
}

/// So much of a span as the rate says.
fn scaled(law: ChargeLaw, runqueue: ChargedRunqueue, rate: u64, nanos: u64) -> u64
    ensures { result ≡ scaled_of law runqueue rate nanos }
{
    match law {
        ChargeLaw::LinuxBefore65 => nanos.wrapping_mul(rate) >> 20,
        ChargeLaw::LinuxFrom65 => nanos.wrapping_mul(rate.wrapping_mul(runqueue.bw_ratio) >> 8)
            >> 20,
        ChargeLaw::Documentation => {
            if runqueue.max_bw == 0 {
                0
            } else {
                nanos.wrapping_mul(rate) / runqueue.max_bw
            }
        }
    }
}
