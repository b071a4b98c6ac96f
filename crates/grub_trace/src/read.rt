//! The plan of event files.

ghost use Rattle.std.specs.Prelude.{◌≡◌, IfOk, IfErr, [], map, string_bytes};
ghost use Rattle.grub_plan.specs.Contents.{contents};
ghost use Rattle.grub_trace.specs.inside.Bodies.{AreRead, head_above};
ghost use Rattle.grub_trace.specs.inside.Heads.{GiveTogether};
ghost use Rattle.grub_trace.specs.inside.Planning.{FilesGive, Collects, IsPlanned};
ghost use Rattle.grub_trace.specs.inside.Reading.{AnswersAs, declarations, scripts_from, plan_from};
ghost use Rattle.grub_trace.specs.inside.Lines.{AreBodies};
ghost use Rattle.grub_trace.specs.Tree.{names_of};
ghost use Rattle.grub_trace.specs.PlanOrFault.{IsPlanOrFault};
ghost use Rattle.grub_trace.specs.declared.tasks.Tasks.{Tasks};

use crate::below::Below;
use crate::fault::{Kind, Location, TraceFault};
use crate::heads::{Heads, read_by_threads, read_heads, read_in_turn};
use crate::raw::RawFile;
use crate::tasks::{Task, Tasks};
use grub_book::{Params, Queue};
use grub_plan::{Line, Plan};
use std::alloc::Global;
use std::thread::Threads;

/// All files, where nothing is wrong with them; else the first fault: of what stands below the heads, or of a head.
fn collect(
    alloc: Global,
    bodies: Vec<Below<'_>>,
    fault: Option<TraceFault>,
) -> Result<Vec<RawFile>, TraceFault>
    ensures { (tasks : Tasks) → AreRead tasks bodies.entry.items → (total : _)
        → GiveTogether (declarations tasks) (map head_above bodies.entry.items) fault total
        → Collects result tasks total }
{
    let mut files = Vec::with_capacity(alloc, bodies.len())?;
    for body in bodies {
        let Below { file, .. } = body;
        files.push(file?)?;
    }
    match fault {
        Some(fault) => Err(fault),
        None => Ok(files),
    }
}

/// The scripts of all files, where no line names a task that none declares. Their lines are kept where they are.
fn scripts(alloc: Global, files: Vec<RawFile>) -> Result<Vec<Vec<Line>>, TraceFault>
    ensures { (tasks : Tasks) (bodies : _) → AreBodies tasks bodies files.items
        → AnswersAs result (λ v. map (λ s. s.items) v.items)
        (scripts_from (names_of (declarations tasks)) [] 0 bodies) }
{
    let mut scripts = Vec::with_capacity(alloc, files.len())?;
    for file in files {
        let RawFile { script, .. } = file;
        match script.unknown {
            None => scripts.push(script.lines)?,
            Some(line) => {
                let file = scripts.len();
                return Err(Location { file, line }.fault(Kind::UnknownTask));
            }
        }
    }
    Ok(scripts)
}

/// The runqueue of each file.
fn queues(alloc: Global, files: &[RawFile]) -> Result<Vec<Queue>, TraceFault>
    ensures queues { IfOk result (λ v. v.items ≡ map (λ f. f.queue) files.now) }
    ensures memory { IfErr result (λ e. e ≡ TraceFault.NoMemory) }
{
    let mut queues = Vec::with_capacity(alloc, files.len())?;
    for file in files {
        queues.push(file.queue)?;
    }
    Ok(queues)
}

/// The reservation of each task.
fn params(alloc: Global, tasks: &[Task]) -> Result<Vec<Params>, TraceFault>
    ensures params { IfOk result (λ v. v.items ≡ map (λ t. t.params) tasks.now) }
    ensures memory { IfErr result (λ e. e ≡ TraceFault.NoMemory) }
{
    let mut params = Vec::with_capacity(alloc, tasks.len())?;
    for task in tasks {
        params.push(task.params)?;
    }
    Ok(params)
}

/// The name of each task.
fn names(alloc: Global, tasks: Vec<Task>) -> Result<Vec<String>, TraceFault>
    ensures names { IfOk result
        (λ v. map string_bytes v.items ≡ map (λ t. string_bytes t.name) tasks.items) }
    ensures memory { IfErr result (λ e. e ≡ TraceFault.NoMemory) }
{
    let mut names = Vec::with_capacity(alloc, tasks.len())?;
    for task in tasks {
        let Task { name, .. } = task;
        names.push(name)?;
    }
    Ok(names)
}

/// The plan of what was read, where nothing is wrong with it.
fn plan_of(alloc: Global, heads: Heads<'_>) -> Result<Plan, TraceFault>
    requires read { AreRead heads.tasks heads.bodies.items }
    requires files { (files : _)
        × FilesGive files heads.tasks (map head_above heads.bodies.items) heads.fault }
    ensures { (files : _) → FilesGive files heads.entry.tasks
        (map head_above heads.entry.bodies.items) heads.entry.fault
        → AnswersAs result (λ p. p) (plan_from files) }
{
    let Heads {
        tasks,
        bodies,
        fault,
    } = heads;
    let files = collect(alloc, bodies, fault)?;
    let queues = queues(alloc, &files)?;
    let params = params(alloc, &tasks.list)?;
    let scripts = scripts(alloc, files)?;
    let Tasks { list, .. } = tasks;
    let names = names(alloc, list)?;
    Ok(Plan::new(queues, params, names, scripts))
}

/// The plan of files that are read in turn.
fn plan(alloc: Global, files: &[Vec<u8>]) -> Result<Plan, TraceFault>
    ensures { IsPlanned (contents files.now) result }
{
    let mut heads = read_heads(alloc, files)?;
    let lent = &mut heads;
    read_in_turn(alloc, &lent.tasks, &mut lent.bodies);
    plan_of(alloc, heads)
}

/// The plan of files that are read by threads.
fn plan_by_threads<R: Threads + Sync>(
    rt: &R,
    alloc: Global,
    files: &[Vec<u8>],
) -> Result<Plan, TraceFault>
    ensures { IsPlanned (contents files.now) result }
{
    let mut heads = read_heads(alloc, files)?;
    let lent = &mut heads;
    read_by_threads(rt, alloc, &lent.tasks, &mut lent.bodies);
    plan_of(alloc, heads)
}

/// The plan of event files, of version 1 or 2, one for each runqueue.
///
/// Faults 28 to 36 come with the file and the line. The first fault is answered, in the order of the files and of the lines
/// of each; names that no file declares come last. It is refused with 37 where the allocator refused.
pub fn read_files(alloc: Global, files: &[Vec<u8>]) -> Result<Plan, TraceFault>
    ensures { IsPlanOrFault (contents files.now) result }
{
    plan(alloc, files)
}

/// The same, where what stands below the first lines and the tasks of each file is read by a thread of its own.
pub fn read_files_by_threads<R: Threads + Sync>(
    rt: &R,
    alloc: Global,
    files: &[Vec<u8>],
) -> Result<Plan, TraceFault>
    ensures { IsPlanOrFault (contents files.now) result }
{
    plan_by_threads(rt, alloc, files)
}
