//! Timers that are due.
ghost use Rattle.std.specs.Prelude.{◌≡◌, ◌<◌, ◌≤◌, Some, IfOk};
ghost use Rattle.grub_book.specs.declared.server.TheConstants.{MOMENT_MAX};
ghost use Rattle.grub_plan.specs.Asked.{AsksDue};
ghost use Rattle.grub_workers.specs.inside.Working.{IsAtWork, IsNotPast};

use crate::desk::Desk;
use crate::gate::Gate;
use crate::worker::{Progress, put};
use grub_book::Op;
use grub_table::Pass;
use std::alloc::AllocError;

/// Asks for each timer of the worker that is due by this moment.
pub(crate) fn ask_due<G: Gate>(
    desk: &Desk<'_, G>,
    mut pass: Pass,
    progress: &mut Progress,
    m: u32,
) -> Result<Pass, AllocError>
    requires at_work { IsAtWork desk.now.table.now desk.now.tries
        desk.now.number pass progress.old }
    requires moment { m ≤ MOMENT_MAX }
    requires not_past { IsNotPast m progress.old }
    requires rounds { 1 ≤ desk.now.rounds }
    ensures at_work { IfOk result
        (λ p. IsAtWork desk.now.table.now desk.now.tries desk.now.number p progress.new) }
    ensures last { IfOk result (λ p. progress.new.wheel.last ≡ Some m) }
    ensures asked { IfOk result
        (λ p. AsksDue m progress.old.entries.items progress.new.entries.items) }
{
    while let Some(timer) = progress.wheel.due(m) {
        let op = Op::Timer {
            ticket: timer.ticket,
            m: timer.z,
        };
        let (next, _) = put(desk, pass, progress, timer.z, timer.t, op)?;
        pass = next;
    }
    Ok(pass)
}
