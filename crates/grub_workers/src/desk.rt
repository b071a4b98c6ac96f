//! What a worker has for all its asks, and the calls of the table with the gate around them.
ghost use Rattle.std.specs.Prelude.{◌<◌, [], ◌∷◌, length};
ghost use Rattle.grub_book.specs.Op.{IsOp};
ghost use Rattle.grub_book.specs.declared.event.Event.TheVariants.{Look};
ghost use Rattle.grub_table.specs.Knowing.{Learns};
ghost use Rattle.grub_table.specs.Calls.{terms, IsCancelled, IsClaimOf, IsFinished, IsPassOf, IsStarted, number_of, share_of};

use crate::gate::Gate;
use grub_book::{Op, Reading};
use grub_table::{Claim, Finished, Pass, Shared, Started};

/// The table and the gate, the number of the worker, which is that of its file, runqueue and pass, and how often an ask is tried.
#[derive(Drop)]
pub struct Desk<'a, G> {
    pub table: &'a Shared,
    pub gate: &'a G,
    pub number: u32,
    pub tries: u8,
    pub rounds: u16,
}

impl<G: Gate> Desk<'_, G> {
    /// `start` of the table. It is one more call of the worker.
    pub(crate) fn start(&self, calls: &mut u64, pass: Pass, t: u32, op: Op) -> Started
        requires of { IsPassOf self.now.table.now pass }
        requires task { t < length (terms self.now.table.now).setup.tasks }
        requires op { IsOp (terms self.now.table.now).setup op }
        ensures { IsStarted self.now.table.now pass t op result }
    {
        self.before(calls);
        let started = self.table.start(pass, t, op);
        self.gate.after(self.number, *calls);
        started
    }

    /// `finish` of the table.
    pub(crate) fn finish(&self, calls: &mut u64, claim: Claim) -> Finished
        requires { IsClaimOf self.now.table.now claim }
        ensures { IsFinished self.now.table.now claim self.now.tries result }
    {
        self.before(calls);
        let finished = self.table.finish(claim, self.tries);
        self.gate.after(self.number, *calls);
        finished
    }

    /// `cancel` of the table.
    pub(crate) fn cancel(&self, calls: &mut u64, claim: Claim) -> Pass
        requires { IsClaimOf self.now.table.now claim }
        ensures { IsCancelled self.now.table.now claim result }
    {
        self.before(calls);
        let pass = self.table.cancel(claim);
        self.gate.after(self.number, *calls);
        pass
    }

    /// `read` of the table, of the worker's own runqueue.
    pub(crate) fn read(&self, calls: &mut u64, pass: &mut Pass) -> Reading
        requires of { IsPassOf self.now.table.now pass.old }
        requires queue { self.now.number < length (terms self.now.table.now).setup.queues }
        ensures of { IsPassOf self.now.table.now pass.new }
        ensures learns { Learns (share_of pass.old) (share_of pass.new)
            (Look (number_of pass.old) self.now.number result ∷ []) [] }
    {
        self.before(calls);
        let reading = self.table.read(pass, self.number);
        self.gate.after(self.number, *calls);
        reading
    }

    /// Counts a call, up to the greatest number, and runs the gate before it.
    fn before(&self, calls: &mut u64) {
        *calls = calls.saturating_add(1);
        self.gate.before(self.number, *calls);
    }
}
