//! One ask of an op: rounds of `start` and `finish`.
ghost use Rattle.std.specs.Prelude.{◌<◌, ◌≤◌, length};
ghost use Rattle.grub_book.specs.Op.{IsOp};
ghost use Rattle.grub_table.specs.Calls.{terms, IsPassOf};
ghost use Rattle.grub_plan.specs.declared.entry.Ask.TheVariants.{Call};
ghost use Rattle.grub_plan.specs.Keeping.{WaitsRightly};
ghost use Rattle.grub_workers.specs.inside.Working.{IsAsked};

use crate::desk::Desk;
use crate::gate::Gate;
use grub_book::Op;
use grub_plan::Answer;
use grub_table::{Claim, Finished, Pass, Started, passes_learn_on};

/// Where an ask stands between two rounds.
enum AskTurn {
    Free(Pass),
    Held(Claim),
}

/// Asks in at most so many rounds. A task that is still held then is given back.
pub(crate) fn ask<G: Gate>(
    desk: &Desk<'_, G>,
    calls: &mut u64,
    pass: Pass,
    t: u32,
    op: Op,
) -> (Pass, Answer)
    requires of { IsPassOf desk.now.table.now pass }
    requires task { t < length (terms desk.now.table.now).setup.tasks }
    requires op { IsOp (terms desk.now.table.now).setup op }
    requires rounds { 1 ≤ desk.now.rounds }
    ensures asked { IsAsked desk.now.table.now desk.now.tries pass (Call t op) result.0 result.1 }
    ensures waits { WaitsRightly op result.1 }
{
    passes_learn_on();
    let mut turn = AskTurn::Free(pass);
    for _ in 0..desk.rounds {
        let claim = match turn {
            AskTurn::Free(pass) => match desk.start(calls, pass, t, op) {
                Started::Answered(pass, reply) => return (pass, Answer::Replied(reply)),
                Started::Held(claim) => claim,
                Started::Busy(pass, _) => {
                    turn = AskTurn::Free(pass);
                    continue;
                }
            },
            AskTurn::Held(claim) => claim,
        };
        match desk.finish(calls, claim) {
            Finished::Done(pass, reply) => return (pass, Answer::Replied(reply)),
            Finished::Held(claim) => turn = AskTurn::Held(claim),
        }
    }
    match turn {
        AskTurn::Free(pass) => (pass, Answer::Busy),
        AskTurn::Held(claim) => (desk.cancel(calls, claim), Answer::Lost),
    }
}
