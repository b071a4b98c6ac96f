//! Timers that are started (`hrtimer_start_range_ns`).
#![tactic(auto, using(probe_values::proofs::Steps::both, probe_values::proofs::Steps::made, probe_values::proofs::Steps::unchanged))]

ghost use Rattle.std.specs.Prelude.{Some, is_none, slice_get, ◌≡◌, ◌&&◌, ◌<◌, None, OnOk, IfSome, false, length, position};
ghost use Rattle.probe_run.specs.Runs.{state_of};
ghost use Rattle.probe_run.specs.State.{found_at};
ghost use Rattle.probe_run.specs.Counting.{Goes, Holds, where_it_holds};
ghost use Rattle.probe_run.specs.Sums.{forget};
ghost use Rattle.probe_values.specs.Shown.{address_agrees};
ghost use Rattle.probe_lines.specs.Timers.{same_function, is_zero_lag, is_other, owner_agrees, timer_address, with_timer, fits_by, zero_lag_agrees, is_timer_to_arm, is_older_by, armed_next, armed_timer_to_arm, armed_actor, armed_of_older, armed_older, armed_zero_lag, armed_unasked, armed_found, armed_at, armed_by};

use kernel_rules::Entity;
use probe_findings::{ExactValue, ProbedLine, Quantity};
use probe_run::{Actor, ComparedValue, Counted, OlderDequeue, PlayRules, Run, TimerToArm};
use probe_values::{Compared, compare_address};
use std::alloc::AllocError;
use trace_data::{Armed, Expiry, TimerFunction};

fn is_same_function(one: TimerFunction, other: TimerFunction) -> bool
    ensures { result ≡ same_function one other }
{
    match one {
        TimerFunction::ZeroLag => match other {
            TimerFunction::ZeroLag => true,
            TimerFunction::Replenish | TimerFunction::Other => false,
        },
        TimerFunction::Replenish => match other {
            TimerFunction::Replenish => true,
            TimerFunction::ZeroLag | TimerFunction::Other => false,
        },
        TimerFunction::Other => match other {
            TimerFunction::Other => true,
            TimerFunction::ZeroLag | TimerFunction::Replenish => false,
        },
    }
}

fn is_of_zero_lag(function: TimerFunction) -> bool
    ensures { result ≡ is_zero_lag function }
{
    match function {
        TimerFunction::ZeroLag => true,
        TimerFunction::Replenish | TimerFunction::Other => false,
    }
}

fn is_other(function: TimerFunction) -> bool
    ensures { result ≡ is_other function }
{
    match function {
        TimerFunction::Other => true,
        TimerFunction::ZeroLag | TimerFunction::Replenish => false,
    }
}

fn address(actor: Actor, function: TimerFunction) -> Option<u64>
    ensures { result ≡ timer_address actor function }
{
    match function {
        TimerFunction::ZeroLag => actor.inactive_timer,
        TimerFunction::Replenish => actor.deadline_timer,
        TimerFunction::Other => None,
    }
}

fn with_timer(actor: Actor, function: TimerFunction, address: u64) -> Actor
    ensures { result ≡ with_timer actor function address }
{
    match function {
        TimerFunction::ZeroLag => Actor {
            inactive_timer: Some(address),
            ..actor
        },
        TimerFunction::Replenish => Actor {
            deadline_timer: Some(address),
            ..actor
        },
        TimerFunction::Other => actor,
    }
}

fn is_owner(run: &Run, known: Option<usize>, number: usize) -> bool
    ensures { result ≡ owner_agrees (state_of run.now) known number }
{
    match known {
        None => true,
        Some(known) => known == number || run.actor(known).entity.is_dead,
    }
}

/// Whether this 0-lag time is what a line shows that was written at the moment `at`, of a timer that was due to be armed from the
/// moment `due` on: a moment is that of a clock between the two, to a microsecond.
pub(crate) fn fits(expiry: Expiry, due: u64, at: u64, zero_lag: i64) -> bool
    ensures { result ≡ fits_by expiry due at zero_lag }
{
    match expiry {
        Expiry::After(span) => zero_lag.cast_unsigned() == span.cast_unsigned(),
        Expiry::At(moment) => {
            let clock = moment.wrapping_sub(zero_lag);
            due.cast_signed() <= clock && clock < at.wrapping_add(1000).cast_signed()
        }
    }
}

fn timer_to_arm_place(
    timers_to_arm: &[TimerToArm],
    by: u32,
    function: TimerFunction,
) -> Option<usize>
    ensures place { result ≡ position (is_timer_to_arm by function) timers_to_arm.now }
    ensures bound { IfSome result (λ place. place < length timers_to_arm.now) }
{
    timers_to_arm.iter().position(|one| one.place.cpu == by
        && is_same_function(one.function, function))
}

fn older_place(older_dequeues: &[OlderDequeue], by: u32) -> Option<usize>
    ensures place { result ≡ position (is_older_by by) older_dequeues.now }
    ensures bound { IfSome result (λ place. place < length older_dequeues.now) }
{
    older_dequeues.iter().position(|one| one.by == by)
}

fn older_by(older_dequeues: &[OlderDequeue], by: u32) -> Option<OlderDequeue>
    ensures { result ≡ found_at older_dequeues.now (position (is_older_by by) older_dequeues.now) }
{
    match older_place(older_dequeues, by) {
        None => None,
        Some(place) => older_dequeues.get(place).copied(),
    }
}

fn check_owner(
    run: &mut Run,
    place: ProbedLine,
    line: Armed,
    timer_to_arm: TimerToArm,
) -> Result<(), AllocError>
    ensures { OnOk result (Holds (state_of run.old)
        (owner_agrees (state_of run.old) ((state_of run.old).timers line.timer) timer_to_arm.entity)
        (state_of run.new)) }
{
    let known = run.timer_owner(line.timer);
    let is_equal = is_owner(run, known, timer_to_arm.entity);
    let owner = if is_equal {
        timer_to_arm.entity
    } else {
        known.unwrap_or(timer_to_arm.entity)
    };
    let rules = ExactValue::Owner(run.whose(timer_to_arm.entity));
    let kernel = ExactValue::Owner(run.whose(owner));
    run.count(
        place,
        ComparedValue {
            of: Counted::Entity(timer_to_arm.entity),
            quantity: Quantity::Timer,
            rules,
            kernel,
        },
        is_equal,
    )
}

fn check_zero_lag(
    run: &mut Run,
    place: ProbedLine,
    line: Armed,
    timer_to_arm: TimerToArm,
) -> Result<(), AllocError>
    ensures { OnOk result (Holds (state_of run.old)
        (zero_lag_agrees timer_to_arm.zero_lag line.expiry timer_to_arm.at place.at) (state_of run.new)) }
{
    match timer_to_arm.zero_lag {
        None => Ok(()),
        Some(rules) => {
            let is_equal = fits(line.expiry, timer_to_arm.at, place.at, rules);
            let (quantity, shown) = match line.expiry {
                Expiry::After(span) => (Quantity::ZeroLag, span),
                Expiry::At(moment) => (
                    Quantity::ZeroLagMoment,
                    moment.wrapping_sub(place.at.cast_signed()),
                ),
            };
            let kernel = if is_equal { rules } else { shown };
            run.count(
                place,
                ComparedValue {
                    of: Counted::Entity(timer_to_arm.entity),
                    quantity,
                    rules: ExactValue::Signed(rules),
                    kernel: ExactValue::Signed(kernel),
                },
                is_equal,
            )
        }
    }
}

fn check_arm(
    run: &mut Run,
    place: ProbedLine,
    line: Armed,
    timer_to_arm: TimerToArm,
    actor: Actor,
) -> Result<(), AllocError>
    ensures { OnOk result (Holds (state_of run.old)
        (owner_agrees (state_of run.old) ((state_of run.old).timers line.timer) timer_to_arm.entity
        && (address_agrees (timer_address actor line.function) line.timer
        && zero_lag_agrees timer_to_arm.zero_lag line.expiry timer_to_arm.at place.at)) (state_of run.new)) }
{
    check_owner(run, place, line, timer_to_arm)?;
    let of = Compared {
        place,
        number: timer_to_arm.entity,
        actor,
    };
    check_arms(run, of, line, timer_to_arm)
}

fn check_arms(
    run: &mut Run,
    of: Compared,
    line: Armed,
    timer_to_arm: TimerToArm,
) -> Result<(), AllocError>
    ensures { OnOk result (Holds (state_of run.old)
        (address_agrees (timer_address of.actor line.function) line.timer
        && zero_lag_agrees timer_to_arm.zero_lag line.expiry timer_to_arm.at of.place.at) (state_of run.new)) }
{
    compare_address(run, of, address(of.actor, line.function), line.timer)?;
    check_zero_lag(run, of.place, line, timer_to_arm)
}

fn keep_armed(
    run: &mut Run,
    line: Armed,
    index: usize,
    timer_to_arm: TimerToArm,
    actor: Actor,
) -> Result<(), AllocError>
    ensures state { OnOk result (state_of run.new
        ≡ armed_next (state_of run.old) line index timer_to_arm actor) }
    ensures first { OnOk result ((state_of run.new).first ≡ (state_of run.old).first) }
{
    run.drop_timer_to_arm(index);
    run.keep(
        timer_to_arm.entity,
        with_timer(actor, line.function, line.timer),
    );
    run.own_timer(line.timer, timer_to_arm.entity)
}

fn arm(
    run: &mut Run,
    place: ProbedLine,
    line: Armed,
    index: usize,
    timer_to_arm: TimerToArm,
) -> Result<(), AllocError>
    ensures { OnOk result (Goes (state_of run.old)
        (armed_timer_to_arm (state_of run.old) place line index timer_to_arm) (state_of run.new)) }
{
    let actor = run.actor(timer_to_arm.entity);
    check_arm(run, place, line, timer_to_arm, actor)?;
    keep_armed(run, line, index, timer_to_arm, actor)?;
    Ok(())
}

/// Counts a timer that is started and that no line asked for.
fn refuse_timer(run: &mut Run, place: ProbedLine, line: Armed) -> Result<(), AllocError>
    ensures { OnOk result (Holds (state_of run.old) false (state_of run.new)) }
{
    let of = match run.timer_owner(line.timer) {
        Some(number) => Counted::Entity(number),
        None => Counted::Nobody,
    };
    run.count(
        place,
        ComparedValue {
            of,
            quantity: Quantity::Timer,
            rules: ExactValue::NotArmed(line.function),
            kernel: ExactValue::Armed(line.function),
        },
        false,
    )
}

fn with_inactive_timer(actor: Actor) -> Actor
    ensures { result ≡ armed_actor actor }
{
    Actor {
        entity: Entity {
            has_inactive_timer: true,
            ..actor.entity
        },
        ..actor
    }
}

fn own_older(run: &mut Run, line: Armed, older: OlderDequeue) -> Result<(), AllocError>
    ensures state { OnOk result (state_of run.new ≡ armed_of_older (state_of run.old) line older) }
    ensures first { OnOk result ((state_of run.new).first ≡ (state_of run.old).first) }
{
    let actor = with_inactive_timer(run.actor(older.entity));
    run.keep(older.entity, actor);
    run.own_timer(line.timer, older.entity)
}

fn arm_of_older(run: &mut Run, line: Armed, older: OlderDequeue) -> Result<(), AllocError>
    ensures { OnOk result (Goes (state_of run.old)
        (Some (armed_of_older (state_of run.old) line older)) (state_of run.new)) }
{
    own_older(run, line, older)?;
    Ok(())
}

fn older_of(run: &Run, by: u32) -> Option<OlderDequeue>
    ensures { result ≡ found_at (state_of run.now).older_dequeues
        (position (is_older_by by) (state_of run.now).older_dequeues) }
{
    older_by(run.older_dequeues(), by)
}

fn arm_any_older(run: &mut Run, place: ProbedLine, line: Armed) -> Result<(), AllocError>
    ensures { OnOk result (Goes (state_of run.old)
        (armed_older (state_of run.old) line
        (found_at (state_of run.old).older_dequeues (position (is_older_by place.cpu) (state_of run.old).older_dequeues)))
        (state_of run.new)) }
{
    match older_of(run, place.cpu) {
        None => refuse_timer(run, place, line),
        Some(older) => arm_of_older(run, line, older),
    }
}

fn forget_first(run: &mut Run, cpu: u32) -> Result<(), AllocError>
    ensures { OnOk result (Goes (state_of run.old)
        (Some (forget (state_of run.old) cpu)) (state_of run.new)) }
{
    run.forget(cpu)?;
    Ok(())
}

fn arm_zero_lag(
    run: &mut Run,
    rules: PlayRules,
    place: ProbedLine,
    line: Armed,
    first: bool,
) -> Result<(), AllocError>
    ensures { OnOk result (Goes (state_of run.old)
        (armed_zero_lag rules (state_of run.old) place line first) (state_of run.new)) }
{
    let is_unknown = run.timer_owner(line.timer).is_none();
    if first && is_unknown {
        forget_first(run, place.cpu)
    } else {
        arm_any_older(run, place, line)
    }
}

/// A replenishment timer that no line asked for, of a known entity: it is armed all the same.
fn arm_known(run: &mut Run, place: ProbedLine, line: Armed, number: usize) -> Result<(), AllocError>
    ensures { OnOk result (Holds (state_of run.old) false (state_of run.new)) }
{
    refuse_timer(run, place, line)?;
    let actor = run.actor(number);
    run.keep(
        number,
        Actor {
            entity: Entity {
                has_deadline_timer: true,
                ..actor.entity
            },
            ..actor
        },
    );
    Ok(())
}

fn arm_replenish(run: &mut Run, place: ProbedLine, line: Armed) -> Result<(), AllocError>
    ensures { OnOk result (Goes (state_of run.old)
        (where_it_holds (is_none ((state_of run.old).timers line.timer)) (state_of run.old))
        (state_of run.new)) }
{
    match run.timer_owner(line.timer) {
        None => Ok(()),
        Some(number) => arm_known(run, place, line, number),
    }
}

fn arm_unasked(
    run: &mut Run,
    rules: PlayRules,
    place: ProbedLine,
    line: Armed,
    first: bool,
) -> Result<(), AllocError>
    ensures { OnOk result (Goes (state_of run.old)
        (armed_unasked rules (state_of run.old) place line first) (state_of run.new)) }
{
    if is_of_zero_lag(line.function) {
        arm_zero_lag(run, rules, place, line, first)
    } else {
        arm_replenish(run, place, line)
    }
}

fn arm_at(
    run: &mut Run,
    rules: PlayRules,
    place: ProbedLine,
    line: Armed,
    first: bool,
    index: usize,
) -> Result<(), AllocError>
    ensures { OnOk result (Goes (state_of run.old)
        (armed_found rules (state_of run.old) place line first index
        (slice_get (state_of run.old).timers_to_arm index)) (state_of run.new)) }
{
    match run.timer_to_arm(index) {
        None => run.refuse(place),
        Some(timer_to_arm) => arm(run, place, line, index, timer_to_arm),
    }
}

fn arm_asked(
    run: &mut Run,
    rules: PlayRules,
    place: ProbedLine,
    line: Armed,
    first: bool,
    index: Option<usize>,
) -> Result<(), AllocError>
    ensures { OnOk result (Goes (state_of run.old)
        (armed_at rules (state_of run.old) place line first index) (state_of run.new)) }
{
    match index {
        None => arm_unasked(run, rules, place, line, first),
        Some(index) => arm_at(run, rules, place, line, first, index),
    }
}

fn arm_owned(
    run: &mut Run,
    rules: PlayRules,
    place: ProbedLine,
    line: Armed,
    first: bool,
) -> Result<(), AllocError>
    ensures { OnOk result (Goes (state_of run.old)
        (armed_at rules (state_of run.old) place line first
        (position (is_timer_to_arm place.cpu line.function) (state_of run.old).timers_to_arm)) (state_of run.new)) }
{
    let index = timer_to_arm_place(run.timers_to_arm(), place.cpu, line.function);
    arm_asked(run, rules, place, line, first, index)?;
    Ok(())
}

/// Plays the line of a timer that is started; `first` where its CPU has written but lines of charges and timers.
pub fn armed(
    run: &mut Run,
    rules: PlayRules,
    place: ProbedLine,
    line: Armed,
    first: bool,
) -> Result<(), AllocError>
    ensures { OnOk result (Goes (state_of run.old)
        (armed_by rules (state_of run.old) place line first) (state_of run.new)) }
{
    if is_other(line.function) {
        Ok(())
    } else {
        arm_owned(run, rules, place, line, first)
    }
}
