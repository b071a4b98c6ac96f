//! The work of one thread, and what its join promises.
ghost use Rattle.std.specs.Prelude.{◌<◌, ◌≤◌, IfOk, length};
ghost use Rattle.grub_table.specs.Calls.{terms, IsNew};
ghost use Rattle.grub_plan.specs.Limits.{ScriptFits};
ghost use Rattle.grub_workers.specs.inside.Working.{IsWorked};

use crate::desk::Desk;
use crate::gate::Gate;
use crate::script::ask_script;
use crate::worker::Progress;
use grub_plan::{Line, Report};
use grub_table::{Pass, Shared};
use grub_wheel::Wheel;
use std::alloc::{AllocError, Global};
use std::thread::Promise;

/// What a worker gives back.
#[derive(Drop)]
pub struct Worked {
    pub pass: Pass,
    pub report: Report,
}

/// That the script was asked by the worker of this number, over this table.
#[derive(Drop)]
pub struct WorkOf<'a> {
    pub table: &'a Shared,
    pub number: u32,
    pub script: &'a [Line],
    pub tries: u8,
}

impl<'a> Promise<Result<Worked, AllocError>> for WorkOf<'a> {
    ghost kept_by = { λ p r. IfOk r
        (λ w. IsWorked p.table.now p.tries p.number p.script.now w.pass w.report.entries.items) };
}

/// Asks a script with a fresh pass and a wheel of its own.
pub(crate) fn work_through<G: Gate>(
    desk: &Desk<'_, G>,
    alloc: Global,
    script: &[Line],
    pass: Pass,
) -> Result<Worked, AllocError>
    requires fresh { IsNew desk.now.table.now desk.now.number pass }
    requires fits { ScriptFits (length (terms desk.now.table.now).setup.tasks) 0 script.now }
    requires queue { desk.now.number < length (terms desk.now.table.now).setup.queues }
    requires rounds { 1 ≤ desk.now.rounds }
    ensures { IfOk result (λ w. IsWorked desk.now.table.now desk.now.tries desk.now.number
        script.now w.pass w.report.entries.items) }
{
    let Ok(wheel) = Wheel::new(alloc) else {
        return Err(AllocError);
    };
    let entries = Vec::with_capacity(alloc, script.len())?;
    let mut progress = Progress {
        entries,
        wheel,
        calls: 0,
    };
    let pass = ask_script(desk, pass, &mut progress, script)?;
    Ok(Worked {
        pass,
        report: Report {
            entries: progress.entries,
        },
    })
}
