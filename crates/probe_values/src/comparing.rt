//! The values that a line shows against the rules': each that is known is compared, once, and counted.
#![tactic(auto, using(crate::proofs::Steps::both, crate::proofs::Steps::both_at))]

ghost use Rattle.std.specs.Prelude.{◌≡◌, ◌&&◌, ◌==◌, OnOk, true};
ghost use Rattle.probe_run.specs.Runs.{state_of};
ghost use Rattle.probe_run.specs.Counting.{Holds};
ghost use Rattle.probe_values.specs.Shown.{same_flag, same_signed, sums_agree, budget_agrees, flags_agree, contending_agrees, lengths_agree, parameters_agree, enqueued_agrees, dequeued_agrees, left_agrees, address_agrees};

use probe_findings::{ExactValue, ProbedLine, Quantity};
use probe_run::{Actor, ComparedValue, Counted, PlayRules, Run};
use std::alloc::AllocError;
use trace_data::{Budget, Dequeued, Enqueued, LeftClass, Parameters, Sums};

/// An entity, at a line.
#[derive(Clone, Copy)]
pub struct Compared {
    pub place: ProbedLine,
    pub number: usize,
    pub actor: Actor,
}

fn is_same_flag(rules: bool, kernel: bool) -> bool
    ensures { result ≡ same_flag rules kernel }
{
    if rules { kernel } else { !kernel }
}

fn is_same_signed(rules: i64, kernel: i64) -> bool
    ensures { result ≡ same_signed rules kernel }
{
    rules.cast_unsigned() == kernel.cast_unsigned()
}

fn add_flag(
    run: &mut Run,
    of: Compared,
    quantity: Quantity,
    rules: bool,
    kernel: bool,
) -> Result<(), AllocError>
    ensures { OnOk result (Holds (state_of run.old) (same_flag rules kernel) (state_of run.new)) }
{
    run.count(
        of.place,
        ComparedValue {
            of: Counted::Entity(of.number),
            quantity,
            rules: ExactValue::Flag(rules),
            kernel: ExactValue::Flag(kernel),
        },
        is_same_flag(rules, kernel),
    )
}

fn add_unsigned(
    run: &mut Run,
    of: Compared,
    quantity: Quantity,
    rules: u64,
    kernel: u64,
) -> Result<(), AllocError>
    ensures { OnOk result (Holds (state_of run.old) (rules == kernel) (state_of run.new)) }
{
    run.count(
        of.place,
        ComparedValue {
            of: Counted::Entity(of.number),
            quantity,
            rules: ExactValue::Unsigned(rules),
            kernel: ExactValue::Unsigned(kernel),
        },
        rules == kernel,
    )
}

fn add_signed(
    run: &mut Run,
    of: Compared,
    quantity: Quantity,
    rules: i64,
    kernel: i64,
) -> Result<(), AllocError>
    ensures { OnOk result (Holds (state_of run.old) (same_signed rules kernel) (state_of run.new)) }
{
    run.count(
        of.place,
        ComparedValue {
            of: Counted::Entity(of.number),
            quantity,
            rules: ExactValue::Signed(rules),
            kernel: ExactValue::Signed(kernel),
        },
        is_same_signed(rules, kernel),
    )
}

/// Compares budget and deadline where they are known.
fn compare_budget(
    run: &mut Run,
    of: Compared,
    runtime: i64,
    deadline: u64,
) -> Result<(), AllocError>
    ensures { OnOk result (Holds (state_of run.old)
        (budget_agrees of.actor runtime deadline) (state_of run.new)) }
{
    if !of.actor.knows_budget {
        return Ok(());
    }
    let budget = of.actor.entity.budget;
    add_signed(run, of, Quantity::Runtime, budget.runtime, runtime)?;
    add_unsigned(run, of, Quantity::Deadline, budget.deadline, deadline)
}

/// Compares whether it is throttled, and yielded.
fn compare_flags(run: &mut Run, of: Compared, shown: Budget) -> Result<(), AllocError>
    ensures { OnOk result (Holds (state_of run.old) (flags_agree of.actor shown) (state_of run.new)) }
{
    if !(of.actor.knows_budget || of.actor.knows_parameters) {
        return Ok(());
    }
    let budget = of.actor.entity.budget;
    add_flag(
        run,
        of,
        Quantity::Throttled,
        budget.is_throttled,
        shown.is_throttled,
    )?;
    add_flag(
        run,
        of,
        Quantity::Yielded,
        budget.is_yielded,
        shown.is_yielded,
    )
}

/// Compares whether it contends.
pub fn compare_contending(run: &mut Run, of: Compared, shown: bool) -> Result<(), AllocError>
    ensures { OnOk result (Holds (state_of run.old)
        (contending_agrees of.actor shown) (state_of run.new)) }
{
    if !of.actor.knows_contending {
        return Ok(());
    }
    let known = of.actor.entity.is_non_contending;
    add_flag(run, of, Quantity::NonContending, known, shown)
}

fn compare_lengths(run: &mut Run, of: Compared, shown: Parameters) -> Result<(), AllocError>
    ensures { OnOk result (Holds (state_of run.old)
        (lengths_agree of.actor shown) (state_of run.new)) }
{
    let known = of.actor.entity.parameters;
    add_unsigned(
        run,
        of,
        Quantity::DlRuntime,
        known.dl_runtime,
        shown.dl_runtime,
    )?;
    add_unsigned(
        run,
        of,
        Quantity::DlDeadline,
        known.dl_deadline,
        shown.dl_deadline,
    )
}

fn compare_others(run: &mut Run, of: Compared, shown: Parameters) -> Result<(), AllocError>
    ensures { OnOk result (Holds (state_of run.old)
        ((of.actor.entity.parameters.dl_period == shown.dl_period)
        && (of.actor.entity.parameters.flags == shown.flags)) (state_of run.new)) }
{
    let known = of.actor.entity.parameters;
    add_unsigned(
        run,
        of,
        Quantity::DlPeriod,
        known.dl_period,
        shown.dl_period,
    )?;
    add_unsigned(run, of, Quantity::SchedFlags, known.flags, shown.flags)
}

/// Compares the reservation where it is known.
fn compare_parameters(run: &mut Run, of: Compared, shown: Parameters) -> Result<(), AllocError>
    ensures { OnOk result (Holds (state_of run.old)
        (parameters_agree of.actor shown) (state_of run.new)) }
{
    if !of.actor.knows_parameters {
        return Ok(());
    }
    compare_lengths(run, of, shown)?;
    compare_others(run, of, shown)
}

fn compare_spent(run: &mut Run, of: Compared, shown: Budget) -> Result<(), AllocError>
    ensures { OnOk result (Holds (state_of run.old)
        (budget_agrees of.actor shown.runtime shown.deadline && flags_agree of.actor shown)
        (state_of run.new)) }
{
    compare_budget(run, of, shown.runtime, shown.deadline)?;
    compare_flags(run, of, shown)
}

/// Compares all that a charge shows of its entity.
pub fn compare_updated(run: &mut Run, of: Compared, shown: Budget) -> Result<(), AllocError>
    ensures { OnOk result (Holds (state_of run.old)
        (budget_agrees of.actor shown.runtime shown.deadline && flags_agree of.actor shown)
        (state_of run.new)) }
{
    compare_spent(run, of, shown)
}

fn compare_reserved(run: &mut Run, of: Compared, line: Enqueued) -> Result<(), AllocError>
    ensures { OnOk result (Holds (state_of run.old)
        (contending_agrees of.actor line.is_non_contending && parameters_agree of.actor line.parameters)
        (state_of run.new)) }
{
    compare_contending(run, of, line.is_non_contending)?;
    compare_parameters(run, of, line.parameters)
}

/// Compares all that an enqueue shows of its entity; of a record without dequeues budget and flags alone.
pub fn compare_enqueued(
    run: &mut Run,
    rules: PlayRules,
    of: Compared,
    line: Enqueued,
) -> Result<(), AllocError>
    ensures { OnOk result (rules.has_dequeues ≡ true → Holds (state_of run.old)
        (enqueued_agrees of.actor line) (state_of run.new)) }
{
    compare_spent(run, of, line.budget)?;
    if rules.has_dequeues {
        compare_reserved(run, of, line)
    } else {
        Ok(())
    }
}

/// Compares all that a dequeue shows of its entity.
pub fn compare_dequeued(run: &mut Run, of: Compared, line: Dequeued) -> Result<(), AllocError>
    ensures { OnOk result (Holds (state_of run.old) (dequeued_agrees of.actor line) (state_of run.new)) }
{
    compare_spent(run, of, line.budget)?;
    compare_contending(run, of, line.is_non_contending)
}

/// Compares all that a task shows as it leaves the class.
pub fn compare_left(run: &mut Run, of: Compared, line: LeftClass) -> Result<(), AllocError>
    ensures { OnOk result (Holds (state_of run.old) (left_agrees of.actor line) (state_of run.new)) }
{
    compare_budget(run, of, line.runtime, line.deadline)?;
    compare_contending(run, of, line.is_non_contending)
}

/// Counts an address at which an entity or its timer does not lie.
pub fn compare_address(
    run: &mut Run,
    of: Compared,
    known: Option<u64>,
    shown: u64,
) -> Result<(), AllocError>
    ensures { OnOk result (Holds (state_of run.old) (address_agrees known shown) (state_of run.new)) }
{
    match known {
        None => Ok(()),
        Some(known) => {
            if known == shown {
                Ok(())
            } else {
                run.count(
                    of.place,
                    ComparedValue {
                        of: Counted::Entity(of.number),
                        quantity: Quantity::Address,
                        rules: ExactValue::Unsigned(known),
                        kernel: ExactValue::Unsigned(shown),
                    },
                    false,
                )
            }
        }
    }
}

fn compare_sum(
    run: &mut Run,
    place: ProbedLine,
    cpu: u32,
    quantity: Quantity,
    known: Option<u64>,
    shown: u64,
) -> Result<(), AllocError>
    ensures { OnOk result (Holds (state_of run.old) (address_agrees known shown) (state_of run.new)) }
{
    match known {
        None => Ok(()),
        Some(known) => run.count(
            place,
            ComparedValue {
                of: Counted::Runqueue(cpu),
                quantity,
                rules: ExactValue::Unsigned(known),
                kernel: ExactValue::Unsigned(shown),
            },
            known == shown,
        ),
    }
}

/// Compares `this_bw` and `running_bw` of a line, where they are not open.
fn compare_sums(run: &mut Run, place: ProbedLine, cpu: u32, shown: Sums) -> Result<(), AllocError>
    ensures { OnOk result (Holds (state_of run.old)
        (sums_agree (state_of run.old) cpu shown) (state_of run.new)) }
{
    if run.are_sums_open(cpu) {
        return Ok(());
    }
    let runqueue = run.runqueue(cpu);
    compare_sum(
        run,
        place,
        cpu,
        Quantity::ThisBw,
        runqueue.this_bw,
        shown.this_bw,
    )?;
    compare_sum(
        run,
        place,
        cpu,
        Quantity::RunningBw,
        runqueue.running_bw,
        shown.running_bw,
    )
}

/// Compares the sums of a line where the record has dequeues.
pub fn check_sums(
    run: &mut Run,
    rules: PlayRules,
    place: ProbedLine,
    cpu: u32,
    shown: Sums,
) -> Result<(), AllocError>
    ensures { OnOk result (rules.has_dequeues ≡ true → Holds (state_of run.old)
        (sums_agree (state_of run.old) cpu shown) (state_of run.new)) }
{
    if rules.has_dequeues {
        compare_sums(run, place, cpu, shown)
    } else {
        Ok(())
    }
}

/// Counts a choice that is not to be.
pub fn check_choice(run: &mut Run, place: ProbedLine, is_legal: bool) -> Result<(), AllocError>
    ensures { OnOk result (Holds (state_of run.old) is_legal (state_of run.new)) }
{
    if is_legal { Ok(()) } else { run.refuse(place) }
}
