//! What a charge takes of a budget (`grub_reclaim`, `dl_scaled_delta_exec`).
#![tactic(auto, using(probe_values::proofs::Steps::both, probe_values::proofs::Steps::both_at))]

ghost use Rattle.std.specs.Prelude.{◌≡◌, ◌&&◌, None, OnOk, is_none};
ghost use Rattle.probe_run.specs.Runs.{state_of};
ghost use Rattle.probe_run.specs.Counting.{Holds};
ghost use Rattle.probe_run.specs.Begin.{processor_of};
ghost use Rattle.probe_tasks.specs.Runs.{delta_by, max_bw_by, shows_max_bw, law_shown, has_run, charged_runqueue_of, scaled_span, capacity_of, capacity_agrees, capacity_may, full_cost, cost_may_be, charged_by};

use crate::choice::LineChoice;
use kernel_changes::{charging_by, cost_by};
use kernel_rules::{Charge, ChargeLaw, ChargedRunqueue, Entity, RECLAIM, charged, has};
use probe_findings::{ExactValue, ProbedLine, Quantity};
use probe_run::{ComparedValue, Counted, PlayRules, Run};
use std::alloc::AllocError;
use trace_data::{Ran, Updated};

/// What ran, in nanoseconds.
pub(crate) fn delta_of(ran: Ran) -> i64
    ensures { result ≡ delta_by ran }
{
    match ran {
        Ran::Span { delta, .. } => delta,
        Ran::Clocks { now, start, .. } => now.wrapping_sub(start).cast_signed(),
    }
}

/// `max_bw` of the runqueue; 0 where the kernel has none.
fn max_bw_of(ran: Ran) -> u64
    ensures { result ≡ max_bw_by ran }
{
    match ran {
        Ran::Span { max_bw, .. } => max_bw,
        Ran::Clocks { max_bw, .. } => max_bw.unwrap_or(0),
    }
}

fn shows_max_bw(ran: Ran) -> bool
    ensures { result ≡ shows_max_bw ran }
{
    match ran {
        Ran::Span { .. } => true,
        Ran::Clocks { max_bw, .. } => max_bw.is_some(),
    }
}

/// Whose equation a charge is by (`grub_reclaim`): that with `max_bw`, where its line shows that the runqueue has it, else that
/// before 6.5; the documentation's, where a record is played by that.
pub fn law_shown(law: ChargeLaw, ran: Ran) -> ChargeLaw
    ensures { result ≡ law_shown law ran }
{
    match law {
        ChargeLaw::Documentation => ChargeLaw::Documentation,
        ChargeLaw::LinuxBefore65 | ChargeLaw::LinuxFrom65 => {
            if shows_max_bw(ran) {
                ChargeLaw::LinuxFrom65
            } else {
                ChargeLaw::LinuxBefore65
            }
        }
    }
}

pub(crate) fn ran(line: Updated) -> bool
    ensures { result ≡ has_run line }
{
    0 < delta_of(line.ran)
}

/// The runqueue by which a charge is reckoned, by the line's `extra_bw` or a later one.
pub(crate) fn charged_runqueue(line: Updated, later: Option<u64>) -> ChargedRunqueue
    ensures { result ≡ charged_runqueue_of line later }
{
    let mut sums = line.sums;
    sums.extra_bw = later.unwrap_or(line.sums.extra_bw);
    ChargedRunqueue {
        sums,
        max_bw: max_bw_of(line.ran),
        bw_ratio: line.bw_ratio,
    }
}

/// A span by a CPU's frequency and capacity (`dl_scaled_delta_exec`).
fn scaled(nanos: u64, frequency: u64, capacity: u64) -> u64
    ensures { result ≡ scaled_span nanos frequency capacity }
{
    (nanos.wrapping_mul(frequency) >> 10).wrapping_mul(capacity) >> 10
}

fn capacity(run: &Run, line: Updated) -> u64
    ensures { result ≡ capacity_of (state_of run.now) line }
{
    let noted = run.processor(line.cpu).capacity.unwrap_or(1024);
    line.speed.capacity.unwrap_or(noted)
}

/// What a charge costs at the speed that its line or a note shows.
pub(crate) fn full_cost(
    run: &Run,
    rules: PlayRules,
    entity: Entity,
    line: Updated,
    later: Option<u64>,
) -> u64
    ensures { rules.change ≡ None → result ≡ full_cost rules (state_of run.now) entity line later }
{
    let nanos = delta_of(line.ran).cast_unsigned();
    let runqueue = charged_runqueue(line, later);
    let law = law_shown(rules.law, line.ran);
    match rules.change {
        None => {
            if has(entity.parameters.flags, RECLAIM) {
                cost_by(None, law, entity, runqueue, nanos)
            } else {
                scaled(
                    nanos,
                    line.speed.frequency.unwrap_or(1024),
                    capacity(run, line),
                )
            }
        }
        Some(change) => {
            match charging_by(Some(change), law, entity, runqueue) {
                Charge::InFull => scaled(
                    nanos,
                    line.speed.frequency.unwrap_or(1024),
                    capacity(run, line),
                ),
                Charge::ByItsBandwidth | Charge::ByWhatIsLeft => {
                    cost_by(Some(change), law, entity, runqueue, nanos)
                }
            }
        }
    }
}

pub(crate) fn can_cost(
    run: &Run,
    rules: PlayRules,
    entity: Entity,
    line: Updated,
    choice: LineChoice,
) -> bool
    ensures { rules.change ≡ None → result ≡ cost_may_be rules (state_of run.now) entity line choice }
{
    let full = full_cost(run, rules, entity, line, choice.extra_bw);
    choice.cost.is_none()
        || ran(line)
            && line.speed.frequency.is_none()
            && !has(entity.parameters.flags, RECLAIM)
            && choice.cost.unwrap_or(0) < full
}

pub(crate) fn with_charge(
    run: &Run,
    rules: PlayRules,
    entity: Entity,
    line: Updated,
    choice: LineChoice,
) -> Entity
    ensures { rules.change ≡ None → result ≡ charged_by rules (state_of run.now) entity line choice }
{
    if ran(line) {
        let full = full_cost(run, rules, entity, line, choice.extra_bw);
        charged(entity, choice.cost.unwrap_or(full))
    } else {
        entity
    }
}

fn compare_capacity(run: &mut Run, place: ProbedLine, line: Updated) -> Result<(), AllocError>
    ensures { OnOk result (Holds (state_of run.old)
        (capacity_agrees line.speed.capacity (processor_of (state_of run.old) line.cpu).capacity)
        (state_of run.new)) }
{
    let noted = run.processor(line.cpu).capacity;
    match line.speed.capacity {
        None => Ok(()),
        Some(shown) => match noted {
            None => Ok(()),
            Some(noted) => run.count(
                place,
                ComparedValue {
                    of: Counted::Runqueue(line.cpu),
                    quantity: Quantity::Capacity,
                    rules: ExactValue::Unsigned(noted),
                    kernel: ExactValue::Unsigned(shown),
                },
                noted == shown,
            ),
        },
    }
}

/// Compares the capacity that a charge reads with a note's.
pub(crate) fn check_capacity(
    run: &mut Run,
    place: ProbedLine,
    line: Updated,
) -> Result<(), AllocError>
    ensures { OnOk result (Holds (state_of run.old)
        (capacity_may (state_of run.old) line) (state_of run.new)) }
{
    if ran(line) {
        compare_capacity(run, place, line)
    } else {
        Ok(())
    }
}
