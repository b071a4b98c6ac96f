//! A script, line by line.
ghost use Rattle.std.specs.Prelude.{◌≡◌, ◌<◌, ◌≤◌, [], Some, None, IfOk, length};
ghost use Rattle.grub_book.specs.declared.server.TheConstants.{MOMENT_MAX};
ghost use Rattle.grub_plan.specs.Asked.{Asked, AsksLine, Follows, JoinsAfter};
ghost use Rattle.grub_plan.specs.Limits.{ActFits, ScriptFits};
ghost use Rattle.grub_table.specs.Calls.{terms};
ghost use Rattle.grub_workers.specs.inside.Working.{IsAtWork, IsNotPast};

use crate::desk::Desk;
use crate::due::ask_due;
use crate::gate::Gate;
use crate::worker::{Progress, call, look};
use grub_book::{Op, Reply};
use grub_plan::{Act, Answer, Line, call_of};
use grub_table::Pass;
use std::alloc::AllocError;

/// Where a task has left, it joins here.
fn join_here<G: Gate>(
    desk: &Desk<'_, G>,
    pass: Pass,
    progress: &mut Progress,
    m: u32,
    t: u32,
    answer: Answer,
) -> Result<Pass, AllocError>
    requires at_work { IsAtWork desk.now.table.now desk.now.tries
        desk.now.number pass progress.old }
    requires task { t < length (terms desk.now.table.now).setup.tasks }
    requires queue { desk.now.number < length (terms desk.now.table.now).setup.queues }
    requires moment { m ≤ MOMENT_MAX }
    requires rounds { 1 ≤ desk.now.rounds }
    requires last { progress.old.wheel.last ≡ Some m }
    ensures at_work { IfOk result
        (λ p. IsAtWork desk.now.table.now desk.now.tries desk.now.number p progress.new) }
    ensures last { IfOk result (λ p. progress.new.wheel.last ≡ Some m) }
    ensures joins { IfOk result (λ p. JoinsAfter desk.now.number m t answer
        progress.old.entries.items progress.new.entries.items) }
{
    match answer {
        Answer::Replied(Reply::Left { .. }) => {
            let op = Op::Join { r: desk.number, m };
            let (pass, _) = call(desk, pass, progress, m, t, op)?;
            Ok(pass)
        }
        _ => Ok(pass),
    }
}

/// Where a wake was answered that the task is on another runqueue, the task moves here.
fn follow<G: Gate>(
    desk: &Desk<'_, G>,
    pass: Pass,
    progress: &mut Progress,
    m: u32,
    act: Act,
    answer: Answer,
) -> Result<Pass, AllocError>
    requires at_work { IsAtWork desk.now.table.now desk.now.tries
        desk.now.number pass progress.old }
    requires act { ActFits (length (terms desk.now.table.now).setup.tasks) act }
    requires queue { desk.now.number < length (terms desk.now.table.now).setup.queues }
    requires moment { m ≤ MOMENT_MAX }
    requires rounds { 1 ≤ desk.now.rounds }
    requires last { progress.old.wheel.last ≡ Some m }
    ensures at_work { IfOk result
        (λ p. IsAtWork desk.now.table.now desk.now.tries desk.now.number p progress.new) }
    ensures last { IfOk result (λ p. progress.new.wheel.last ≡ Some m) }
    ensures follows { IfOk result (λ p. Follows desk.now.number m act answer
        progress.old.entries.items progress.new.entries.items) }
{
    match (act, answer) {
        (Act::Wake(t), Answer::Replied(Reply::Elsewhere(_))) => {
            let (pass, left) = call(desk, pass, progress, m, t, Op::Leave)?;
            join_here(desk, pass, progress, m, t, left)
        }
        _ => Ok(pass),
    }
}

/// Asks for the timers that are due before a line, for the line, and for what follows from its answer.
fn ask_line<G: Gate>(
    desk: &Desk<'_, G>,
    pass: Pass,
    progress: &mut Progress,
    line: Line,
) -> Result<Pass, AllocError>
    requires at_work { IsAtWork desk.now.table.now desk.now.tries
        desk.now.number pass progress.old }
    requires act { ActFits (length (terms desk.now.table.now).setup.tasks) line.act }
    requires queue { desk.now.number < length (terms desk.now.table.now).setup.queues }
    requires moment { line.m ≤ MOMENT_MAX }
    requires rounds { 1 ≤ desk.now.rounds }
    requires not_past { IsNotPast line.m progress.old }
    ensures at_work { IfOk result
        (λ p. IsAtWork desk.now.table.now desk.now.tries desk.now.number p progress.new) }
    ensures last { IfOk result (λ p. progress.new.wheel.last ≡ Some line.m) }
    ensures asked { IfOk result
        (λ p. AsksLine desk.now.number progress.old.entries.items line progress.new.entries.items) }
{
    let Line { m, act } = line;
    let pass = ask_due(desk, pass, progress, m)?;
    match call_of(desk.number, m, act) {
        None => look(desk, pass, progress, m),
        Some((t, op)) => {
            let (pass, answer) = call(desk, pass, progress, m, t, op)?;
            follow(desk, pass, progress, m, act, answer)
        }
    }
}

/// Asks for each line of the script.
pub(crate) fn ask_script<G: Gate>(
    desk: &Desk<'_, G>,
    mut pass: Pass,
    progress: &mut Progress,
    script: &[Line],
) -> Result<Pass, AllocError>
    requires at_work { IsAtWork desk.now.table.now desk.now.tries
        desk.now.number pass progress.old }
    requires empty { progress.old.entries.items ≡ [] }
    requires fits { ScriptFits (length (terms desk.now.table.now).setup.tasks) 0 script.now }
    requires queue { desk.now.number < length (terms desk.now.table.now).setup.queues }
    requires rounds { 1 ≤ desk.now.rounds }
    requires last { progress.old.wheel.last ≡ None }
    ensures at_work { IfOk result
        (λ p. IsAtWork desk.now.table.now desk.now.tries desk.now.number p progress.new) }
    ensures asked { IfOk result (λ p. Asked desk.now.number script.now progress.new.entries.items) }
{
    for line in script {
        pass = ask_line(desk, pass, progress, *line)?;
    }
    Ok(pass)
}
