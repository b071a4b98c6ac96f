//! What a worker keeps between its asks, and one entry more.
ghost use Rattle.std.specs.Prelude.{◌≡◌, ◌<◌, ◌≤◌, ◌++◌, ◌∷◌, [], Some, IfOk, length};
ghost use Rattle.grub_book.specs.Op.{IsOp};
ghost use Rattle.grub_plan.specs.declared.entry.Ask.TheVariants.{Call, Read};
ghost use Rattle.grub_plan.specs.Asked.{AsksOne, entry};
ghost use Rattle.grub_plan.specs.Keeping.{WaitsRightly};
ghost use Rattle.grub_plan.specs.inside.Keeping.{IsLineOp};
ghost use Rattle.grub_table.specs.Calls.{terms};
ghost use Rattle.grub_workers.specs.inside.Working.{IsAtWork, IsToldBy};

use crate::asking::ask;
use crate::desk::Desk;
use crate::gate::Gate;
use grub_book::Op;
use grub_plan::{Answer, Ask, Entry, keep, make_room};
use grub_table::Pass;
use grub_wheel::Wheel;
use std::alloc::AllocError;

/// What a worker keeps between its asks beside its pass, which goes from hand to hand: the entries so far, the timers
/// that it armed, and how many calls it made.
#[derive(Drop)]
pub struct Progress {
    pub entries: Vec<Entry>,
    pub wheel: Wheel,
    pub calls: u64,
}

/// Asks, and makes the entry of it.
pub(crate) fn put<G: Gate>(
    desk: &Desk<'_, G>,
    pass: Pass,
    progress: &mut Progress,
    m: u32,
    t: u32,
    op: Op,
) -> Result<(Pass, Answer), AllocError>
    requires told { IsToldBy desk.now.table.now desk.now.tries desk.now.number pass
        progress.old.entries.items }
    requires task { t < length (terms desk.now.table.now).setup.tasks }
    requires op { IsOp (terms desk.now.table.now).setup op }
    requires rounds { 1 ≤ desk.now.rounds }
    ensures told { IfOk result (λ r.
        IsToldBy desk.now.table.now desk.now.tries desk.now.number r.0 progress.new.entries.items) }
    ensures list { IfOk result (λ r. progress.new.entries.items
        ≡ progress.old.entries.items ++ entry m (Call t op) r.1 ∷ []) }
    ensures waits { IfOk result (λ r. WaitsRightly op r.1) }
    ensures wheel { progress.new.wheel ≡ progress.old.wheel }
{
    progress.entries.reserve(1)?;
    let (pass, answer) = ask(desk, &mut progress.calls, pass, t, op);
    progress.entries.push_reserved(Entry {
        m,
        ask: Ask::Call { t, op },
        answer,
    });
    Ok((pass, answer))
}

/// Asks for a line of the script at this moment, and keeps the wheel.
pub(crate) fn call<G: Gate>(
    desk: &Desk<'_, G>,
    pass: Pass,
    progress: &mut Progress,
    m: u32,
    t: u32,
    op: Op,
) -> Result<(Pass, Answer), AllocError>
    requires at_work { IsAtWork desk.now.table.now desk.now.tries
        desk.now.number pass progress.old }
    requires task { t < length (terms desk.now.table.now).setup.tasks }
    requires op { IsOp (terms desk.now.table.now).setup op }
    requires line { IsLineOp m op }
    requires rounds { 1 ≤ desk.now.rounds }
    requires last { progress.old.wheel.last ≡ Some m }
    ensures at_work { IfOk result
        (λ r. IsAtWork desk.now.table.now desk.now.tries desk.now.number r.0 progress.new) }
    ensures last { IfOk result (λ r. progress.new.wheel.last ≡ Some m) }
    ensures list { IfOk result (λ r. progress.new.entries.items
        ≡ progress.old.entries.items ++ entry m (Call t op) r.1 ∷ []) }
{
    make_room(&mut progress.wheel, op)?;
    let (pass, answer) = put(desk, pass, progress, m, t, op)?;
    keep(&mut progress.wheel, t, op, answer);
    Ok((pass, answer))
}

/// Reads the runqueue, and makes the entry of it.
pub(crate) fn look<G: Gate>(
    desk: &Desk<'_, G>,
    mut pass: Pass,
    progress: &mut Progress,
    m: u32,
) -> Result<Pass, AllocError>
    requires at_work { IsAtWork desk.now.table.now desk.now.tries
        desk.now.number pass progress.old }
    requires queue { desk.now.number < length (terms desk.now.table.now).setup.queues }
    ensures at_work { IfOk result
        (λ p. IsAtWork desk.now.table.now desk.now.tries desk.now.number p progress.new) }
    ensures last { IfOk result (λ p. progress.new.wheel.last ≡ progress.old.wheel.last) }
    ensures goes_on { IfOk result
        (λ p. AsksOne m Read progress.old.entries.items progress.new.entries.items) }
{
    progress.entries.reserve(1)?;
    let reading = desk.read(&mut progress.calls, &mut pass);
    progress.entries.push_reserved(Entry {
        m,
        ask: Ask::Read,
        answer: Answer::Seen(reading),
    });
    Ok(pass)
}
