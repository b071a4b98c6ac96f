//! A thread for each file.
ghost use Rattle.std.specs.Prelude.{◌≡◌, ℕ, ◌<◌, ◌≤◌, None, length, IfOk, vec_len, slice_index_or};
ghost use Rattle.grub_table.specs.Calls.{terms, AreNew, IsNew};
ghost use Rattle.grub_plan.specs.Limits.{ScriptFits};
ghost use Rattle.grub_workers.specs.inside.Working.{IsWorked};
ghost use Rattle.grub_workers.specs.inside.Handles.{AllFit, AllWorked, Handle, HasRoom, IsOf};

use crate::attempts::Attempts;
use crate::desk::Desk;
use crate::gate::Gate;
use crate::outcome::RunFault;
use crate::work::{WorkOf, Worked, work_through};
use grub_plan::{Plan, Report};
use grub_table::{Pass, Shared};
use std::alloc::{AllocError, Global};
use std::sync::Wait;
use std::thread;
use std::thread::{PromisedHandle, Scope, Threads};

type Handle<'a> = PromisedHandle<Result<Worked, AllocError>, WorkOf<'a>>;

/// The workers that were started, in the order of the files: all of them, or those before the refusal.
#[derive(Drop)]
struct StartedWorkers<'a> {
    handles: Vec<Handle<'a>>,
    refusal: Option<RunFault>,
}

/// What the workers gave back, in the order of the files.
#[derive(Drop)]
pub struct Done {
    pub passes: Vec<Pass>,
    pub reports: Vec<Report>,
}

/// What the workers of a run share: the table, the plan whose scripts they ask, how often they try an ask, and the gate.
#[derive(Drop)]
pub struct SharedWork<'a, G> {
    pub table: &'a Shared,
    pub plan: &'a Plan,
    pub attempts: Attempts,
    pub gate: &'a G,
}

/// A worker for each file, all at once. All that were started are joined.
pub(crate) fn run_scoped<R: Threads + Wait, G: Gate>(
    rt: &R,
    alloc: Global,
    work: SharedWork<'_, G>,
    passes: Vec<Pass>,
) -> Result<Done, RunFault>
    requires len { vec_len passes ≡ length work.plan.now.scripts }
    requires fresh { AreNew work.table.now passes.items }
    requires fits { AllFit work.table.now work.plan.now }
    requires rounds { 1 ≤ work.attempts.rounds }
    ensures { IfOk result (λ d. AllWorked work.entry.table.now work.entry.attempts.tries work.entry.plan.now.scripts
        d.passes.items d.reports.items) }
{
    let SharedWork {
        table,
        plan,
        attempts: Attempts { tries, rounds },
        gate,
    } = work;
    let count = passes.len();
    let Ok(done) = room_for(alloc, count) else {
        return Err(RunFault::NoMemory);
    };
    thread::scope(
        thread::scope_env(),
        rt,
        |scope| -> Result<Done, RunFault>
            requires { (vec_len passes ≡ length plan.now.scripts) × AreNew table.now passes.items
                × AllFit table.now plan.now
                × HasRoom (length plan.now.scripts) done.passes done.reports × (1 ≤ rounds) }
            ensures { IfOk result (λ d. AllWorked table.entry.now tries plan.entry.now.scripts
                d.passes.items d.reports.items) }
        {
            let work = SharedWork {
                table,
                plan,
                attempts: Attempts { tries, rounds },
                gate,
            };
            let started = start_all(scope, alloc, work, passes);
            join_all(rt, started, done, table, plan, tries)
        },
    )
}

/// Starts a worker for each pass, up to the first thread that is refused.
fn start_all<'s, 'e, G: Gate>(
    scope: &'s Scope<'s, &'e ()>,
    alloc: Global,
    work: SharedWork<'s, G>,
    passes: Vec<Pass>,
) -> StartedWorkers<'s>
    requires len { vec_len passes ≡ length work.plan.now.scripts }
    requires fresh { AreNew work.table.now passes.items }
    requires fits { AllFit work.table.now work.plan.now }
    requires rounds { 1 ≤ work.attempts.rounds }
    ensures len { vec_len result.handles ≤ length work.entry.plan.now.scripts }
    ensures whole { result.refusal ≡ None
        → vec_len result.handles ≡ length work.entry.plan.now.scripts }
    ensures each { (i : ℕ) (d : Handle) → i < vec_len result.handles
        → IsOf work.entry.table.now work.entry.attempts.tries work.entry.plan.now.scripts i
        (slice_index_or result.handles.items i d).promise }
{
    let SharedWork {
        table,
        plan,
        attempts: Attempts { tries, rounds },
        gate,
    } = work;
    let mut refusal = None;
    let Ok(mut handles) = Vec::with_capacity(alloc, passes.len()) else {
        return StartedWorkers {
            handles: Vec::new(alloc),
            refusal: Some(RunFault::NoMemory),
        };
    };
    for pass in passes {
        let number = pass.number();
        let script = plan.script(number);
        let promise = WorkOf {
            table,
            number,
            script,
            tries,
        };
        let handle = scope.spawn_with(
            promise,
            move || -> Result<Worked, AllocError>
                requires { IsNew table.now number pass
                    × ScriptFits (length (terms table.now).setup.tasks) 0 script.now
                    × (number < length (terms table.now).setup.queues) × (1 ≤ rounds) }
                ensures { IfOk result (λ w. IsWorked table.entry.now tries number script.entry.now
                    w.pass w.report.entries.items) }
            {
                let desk = Desk {
                    table,
                    gate,
                    number,
                    tries,
                    rounds,
                };
                work_through(&desk, alloc, script, pass)
            },
        );
        let Ok(handle) = handle else {
            refusal = Some(RunFault::Spawn);
            break;
        };
        let Ok(()) = handles.push(handle) else {
            unreachable!()
        };
    }
    StartedWorkers { handles, refusal }
}

/// Two empty lists that take this many without growing.
fn room_for(alloc: Global, count: usize) -> Result<Done, AllocError>
    ensures { IfOk result (λ d. HasRoom count d.passes d.reports) }
{
    let passes = Vec::with_capacity(alloc, count)?;
    let reports = Vec::with_capacity(alloc, count)?;
    Ok(Done { passes, reports })
}

/// Joins all that was started, and gives the results in order where all went well.
fn join_all<R: Threads>(
    rt: &R,
    started: StartedWorkers<'_>,
    done: Done,
    _table: &Shared,
    _plan: &Plan,
    _tries: u8,
) -> Result<Done, RunFault>
    requires len { vec_len started.handles ≤ length _plan.now.scripts }
    requires whole { started.refusal ≡ None → vec_len started.handles ≡ length _plan.now.scripts }
    requires each { (i : ℕ) (d : Handle) → i < vec_len started.handles
        → IsOf _table.now _tries _plan.now.scripts i
        (slice_index_or started.handles.items i d).promise }
    requires room { HasRoom (length _plan.now.scripts) done.passes done.reports }
    ensures { IfOk result
        (λ d. AllWorked _table.now _tries _plan.now.scripts d.passes.items d.reports.items) }
{
    let StartedWorkers { handles, refusal } = started;
    let Done {
        mut passes,
        mut reports,
    } = done;
    let mut fault = refusal;
    for handle in handles {
        match handle.join(rt) {
            Ok(worked) => {
                let Worked { pass, report } = worked;
                let Ok(()) = passes.push(pass) else {
                    unreachable!()
                };
                let Ok(()) = reports.push(report) else {
                    unreachable!()
                };
            }
            Err(AllocError) => fault = Some(RunFault::NoMemory),
        }
    }
    match fault {
        None => Ok(Done { passes, reports }),
        Some(fault) => Err(fault),
    }
}
