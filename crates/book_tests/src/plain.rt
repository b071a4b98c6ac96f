//! The plain book, which adds its sums up afresh for each call. Tests compare `Book` with it.

ghost use Rattle.std.specs.Prelude.{◌≡◌, ◌≤◌, ◌<◌, ◌^◌, IfOk, if◌then◌else◌, length};
ghost use Rattle.grub_book.specs.Bandwidth.{bandwidth_of};
ghost use Rattle.grub_book.specs.Op.{IsOp};
ghost use Rattle.grub_book.specs.Sums.{opening_book, reading_of, record_at};
ghost use Rattle.grub_book.specs.Step.{step};

use grub_book::{
    Op, Params, Reading, Record, Reply, Setup, opening_records, refusal, runqueue, settle,
};
use std::alloc::{AllocError, Global};
use std::marker::Model;

/// The records of all tasks, and nothing beside them.
#[derive(Drop)]
pub struct PlainBook<'a> {
    setup: &'a Setup,
    records: Vec<Record>,
}

impl<'a> Model for PlainBook<'a> {
    ghost use Rattle.grub_book.specs.Sound.{Standing};
    ghost use Rattle.grub_book.specs.inside.Standings.{IsStanding};

    ghost Value = { Standing };

    ghost view = { λ b. record { setup = b.setup.now; records = b.records.items } };

    ghost invariant = { λ b.
        IsStanding (record { setup = b.setup.now; records = b.records.items }) };
}

impl<'a> PlainBook<'a> {
    pub(crate) fn new(alloc: Global, setup: &'a Setup) -> Result<PlainBook<'a>, AllocError>
        ensures { IfOk result
            (λ b. b ≡ record { setup = setup.now; records = opening_book setup.now }) }
    {
        let records = opening_records(alloc, setup)?;
        Ok(PlainBook { setup, records })
    }

    pub(crate) fn read(&self, r: u32) -> Reading
        requires { r < length self.now.setup.queues }
        ensures { result ≡ reading_of self.now.records r }
    {
        tally(&self.records, r)
    }

    pub(crate) fn apply(&mut self, t: u32, op: Op) -> Reply
        requires task { t < length self.old.setup.tasks }
        requires fits { IsOp self.old.setup op }
        ensures setup { self.new.setup ≡ self.old.setup }
        ensures step { (self.new.records, result) ≡ step self.old.setup self.old.records t op }
    {
        let held = record_of(&self.records, t);
        if let Some(reply) = refusal(held.place, held.count, op) {
            return reply;
        }
        let r = runqueue(held.place, op);
        let reading = tally(&self.records, r);
        let (next, reply) = settle(held, self.setup.queue(r), reading, op);
        self.records[t as usize] = next;
        reply
    }
}

/// The record of a task.
fn record_of(records: &[Record], t: u32) -> Record
    requires { t < length records.now }
    ensures { result ≡ record_at records.now t }
{
    records[t as usize]
}

/// What a task adds to a sum: its bandwidth, where it counts.
fn share(counts: bool, params: Params) -> u32
    ensures value { result ≡ (if counts then bandwidth_of params else 0) }
    ensures most { result ≤ 2 ^ 20 }
{
    if counts { params.bw() } else { 0 }
}

/// The bandwidths of a runqueue, added up afresh.
#[tactic(auto, using(crate::proofs::Afresh::tallied_more, crate::proofs::Afresh::tallied_all))]
fn tally(records: &[Record], r: u32) -> Reading
    requires { length records.now ≤ 256 }
    ensures value { result ≡ reading_of records.now r }
    ensures running { result.running ≤ result.this }
{
    let mut running = 0;
    let mut this = 0;
    for held in records {
        this += share(held.place.is_on(r), held.params);
        running += share(held.place.is_active_on(r), held.params);
    }
    Reading { running, this }
}
