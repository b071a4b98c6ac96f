//! A reservation is asked for (`sched_dl_overflow`, and what of sched_setattr(2) follows under the same lock).

ghost use Rattle.std.specs.Prelude.{◌≡◌, None, OnOk, IfOk};
ghost use Rattle.kernel_rules.specs.Admit.{wanted_of};
ghost use Rattle.probe_run.specs.Runs.{state_of};
ghost use Rattle.probe_tasks.specs.Tasks.{total_read, starts_anew, living_state, living_number, known_by, room_of, admitted_ordinary, admitted_unseen, admitted_known, admitted_actor, admitted_with, admitted_deadline, admitted_by};
ghost use Rattle.probe_run.specs.Sums.{change as changed_sums, share_in};

use kernel_rules::{Admission, DEADLINE_POLICY, Entity, SumsChange, cleared, has, wanted};
use probe_findings::{ExactRule, ProbedLine};
use probe_run::{Actor, PlayRules, Run, UnlockedSum, admit_while, reserve};
use std::alloc::AllocError;
use trace_data::Admitted;

/// SCHED_FLAG_SUGOV.
const SUGOV: u64 = 268_435_456;

fn read_total(
    run: &mut Run,
    place: ProbedLine,
    domain: Option<u64>,
    total_bw: u64,
) -> Result<(), AllocError>
    ensures state { OnOk result (state_of run.new ≡ total_read (state_of run.old) place domain total_bw) }
    ensures first { OnOk result ((state_of run.new).first ≡ (state_of run.old).first) }
{
    match domain {
        None => Ok(()),
        Some(number) => {
            if run.has_members(number) {
                run.claim(place, UnlockedSum::TotalBw(number), total_bw)
            } else {
                Ok(())
            }
        }
    }
}

/// Whether the pid of a task that has ended is another task's.
fn is_another(actor: Actor, line: Admitted) -> bool
    ensures { result ≡ starts_anew actor line }
{
    actor.entity.is_dead && !(line.policy_before == DEADLINE_POLICY)
}

fn living(run: &mut Run, number: usize, line: Admitted, actor: Actor) -> Result<usize, AllocError>
    ensures number { IfOk result (λ living. living
        ≡ living_number (state_of run.old) number line actor) }
    ensures state { OnOk result (state_of run.new
        ≡ living_state (state_of run.old) number line actor) }
    ensures first { OnOk result ((state_of run.new).first ≡ (state_of run.old).first) }
{
    if is_another(actor, line) {
        run.new_life(line.pid, actor.whose)
    } else {
        Ok(number)
    }
}

fn known(actor: Actor, cpu: u32) -> Actor
    ensures { result ≡ known_by actor cpu }
{
    if actor.knows_parameters {
        Actor { cpu, ..actor }
    } else {
        Actor {
            entity: cleared(actor.entity),
            knows_parameters: true,
            knows_contending: true,
            cpu,
            ..actor
        }
    }
}

/// What a root domain has room for (`dl_bw_capacity`).
fn room(run: &Run, line: Admitted) -> u64
    ensures { result ≡ room_of (state_of run.now) line }
{
    line.limit.wrapping_mul(run.domain_capacity(line.cpu)) >> 10
}

fn change_and_share(
    run: &mut Run,
    place: ProbedLine,
    cpu: u32,
    by: SumsChange,
) -> Result<(), AllocError>
    ensures state { OnOk result (state_of run.new
        ≡ share_in (changed_sums (state_of run.old) cpu by) place cpu by) }
    ensures first { OnOk result ((state_of run.new).first ≡ (state_of run.old).first) }
{
    run.change(cpu, by)?;
    run.share(place, cpu, by)
}

fn admit_reserved(
    run: &mut Run,
    rules: PlayRules,
    place: ProbedLine,
    number: usize,
    line: Admitted,
    actor: Actor,
) -> Result<(), AllocError>
    ensures state { OnOk result (rules.change ≡ None → state_of run.new
        ≡ admitted_ordinary (state_of run.old) place number line actor) }
    ensures first { OnOk result ((state_of run.new).first ≡ (state_of run.old).first) }
{
    let limit = room(run, line);
    let runs = run.handler_runs(number);
    let done = admit_while(rules.change, runs, actor.entity, line, limit);
    note_admission(run, place, number, done.admission)?;
    run.keep(
        number,
        Actor {
            entity: done.entity,
            ..actor
        },
    );
    change_and_share(run, place, line.cpu, done.change)?;
    Ok(())
}

fn keep_unseen(run: &mut Run, number: usize, line: Admitted, actor: Actor)
    ensures state { state_of run.new ≡ admitted_unseen (state_of run.old) number line actor }
    ensures first { (state_of run.new).first ≡ (state_of run.old).first }
{
    run.keep(
        number,
        Actor {
            entity: Entity {
                is_in_class: true,
                ..reserve(actor.entity, wanted(line))
            },
            ..actor
        },
    );
}

fn admit_known(
    run: &mut Run,
    rules: PlayRules,
    place: ProbedLine,
    number: usize,
    line: Admitted,
    actor: Actor,
) -> Result<(), AllocError>
    ensures state { OnOk result (rules.change ≡ None → state_of run.new
        ≡ admitted_known (state_of run.old) place number line actor) }
    ensures first { OnOk result ((state_of run.new).first ≡ (state_of run.old).first) }
{
    if has(line.parameters.flags, SUGOV) {
        keep_unseen(run, number, line, actor);
        Ok(())
    } else {
        admit_reserved(run, rules, place, number, line, actor)
    }
}

fn admit_actor(
    run: &mut Run,
    rules: PlayRules,
    place: ProbedLine,
    number: usize,
    line: Admitted,
    actor: Actor,
) -> Result<(), AllocError>
    ensures state { OnOk result (rules.change ≡ None → state_of run.new
        ≡ admitted_actor (state_of run.old) place number line actor) }
    ensures first { OnOk result ((state_of run.new).first ≡ (state_of run.old).first) }
{
    if !actor.knows_parameters && line.policy_before == DEADLINE_POLICY {
        run.forget_all();
        run.forget_unlocked();
        return Ok(());
    }
    let known = known(actor, line.cpu);
    admit_known(run, rules, place, number, line, known)
}

fn admit(
    run: &mut Run,
    rules: PlayRules,
    place: ProbedLine,
    number: usize,
    line: Admitted,
) -> Result<(), AllocError>
    ensures state { OnOk result (rules.change ≡ None → state_of run.new
        ≡ admitted_with (state_of run.old) place number line) }
    ensures first { OnOk result ((state_of run.new).first ≡ (state_of run.old).first) }
{
    let found = run.actor(number);
    let alive = living(run, number, line, found)?;
    let actor = run.actor(alive);
    admit_actor(run, rules, place, alive, line, actor)?;
    Ok(())
}

fn admit_deadline(
    run: &mut Run,
    rules: PlayRules,
    place: ProbedLine,
    line: Admitted,
) -> Result<(), AllocError>
    ensures state { OnOk result (rules.change ≡ None → state_of run.new
        ≡ admitted_deadline (state_of run.old) place line) }
    ensures first { OnOk result ((state_of run.new).first ≡ (state_of run.old).first) }
{
    let domain = run.domain_of(line.cpu);
    read_total(run, place, domain, line.total_bw)?;
    let number = run.task(line.pid)?;
    admit(run, rules, place, number, line)?;
    Ok(())
}

/// Plays the line of an admission.
pub fn admitted(
    run: &mut Run,
    rules: PlayRules,
    place: ProbedLine,
    line: Admitted,
) -> Result<(), AllocError>
    ensures state { OnOk result (rules.change ≡ None → state_of run.new
        ≡ admitted_by (state_of run.old) place line) }
    ensures first { OnOk result ((state_of run.new).first ≡ (state_of run.old).first) }
{
    if line.policy == DEADLINE_POLICY {
        admit_deadline(run, rules, place, line)
    } else {
        Ok(())
    }
}

fn note_admission(
    run: &mut Run,
    place: ProbedLine,
    number: usize,
    admission: Admission,
) -> Result<(), AllocError>
    ensures { state_of run.new ≡ state_of run.old }
{
    match admission {
        Admission::Other | Admission::Same => Ok(()),
        Admission::Refused => {
            run.note_rule(ExactRule::Refused);
            Ok(())
        }
        Admission::Changed => run.note_entity(place, number, ExactRule::BandwidthChanged),
        Admission::Back => run.note_entity(place, number, ExactRule::BackBeforeZeroLag),
        Admission::New => run.note_entity(place, number, ExactRule::Admitted),
    }
}
