//! Root domains: what an admission takes, and what comes back.

ghost use Rattle.std.specs.Prelude.{◌≡◌, ◌<◌, ◌++◌, OnOk, IfSome, length, filter, map, position};
ghost use Rattle.std.specs.List.{list_any};
ghost use Rattle.probe_run.specs.Runs.{state_of};
ghost use Rattle.probe_run.specs.Sums.{is_processor, domain_of, is_number, is_member, has_members, extra_effect, pend_on_each, pend_total, members_of, pend_freed, pend_taken, forgets_extra, forget_others, has_shares, share_by, share_in, capacity_in, is_counted, domain_capacity};

use crate::rules::Processor;
use crate::run::Run;
use crate::sums::{Runqueue, with_no_extra};
use crate::waiting::{Effect, PendingEffect, UnlockedSum};
use kernel_rules::{SumsChange, share};
use probe_findings::ProbedLine;
use std::alloc::AllocError;

pub(crate) fn processor_place(processors: &[Processor], cpu: u32) -> Option<usize>
    ensures place { result ≡ position (is_processor cpu) processors.now }
    ensures bound { IfSome result (λ place. place < length processors.now) }
{
    processors.iter().position(|one| one.cpu == cpu)
}

/// The root domain of a CPU, if it is known.
pub(crate) fn domain_of(processors: &[Processor], cpu: u32) -> Option<u64>
    ensures { result ≡ domain_of processors.now cpu }
{
    match processor_place(processors, cpu) {
        Some(place) => match processors.get(place) {
            Some(processor) => processor.domain,
            None => None,
        },
        None => None,
    }
}

fn is_domain(domain: Option<u64>, number: u64) -> bool
    ensures { result ≡ is_number domain number }
{
    match domain {
        Some(domain) => domain == number,
        None => false,
    }
}

/// Whether an active CPU is of this root domain.
fn is_member(number: u64, processor: Processor) -> bool
    ensures { result ≡ is_member number processor }
{
    processor.is_active && is_domain(processor.domain, number)
}

fn has_member(processors: &[Processor], number: u64) -> bool
    ensures { result ≡ list_any (is_member number) processors.now }
{
    processors.iter().any(|one| is_member(number, *one))
}

fn has_members(processors: &[Processor], domain: Option<u64>) -> bool
    ensures { result ≡ has_members processors.now domain }
{
    match domain {
        None => false,
        Some(number) => has_member(processors, number),
    }
}

/// How many CPUs a root domain has (`dl_bw_cpus`).
pub(crate) fn count_members(processors: &[Processor], number: u64) -> usize
    ensures { result ≡ members_of processors.now number }
{
    processors
        .iter()
        .filter(|one| is_member(number, **one))
        .count()
}

fn extra_effect(place: ProbedLine, amount: u64, processor: Processor) -> PendingEffect
    ensures { result ≡ extra_effect place amount processor }
{
    PendingEffect {
        place,
        effect: Effect::Adds {
            sum: UnlockedSum::ExtraBw(processor.cpu),
            amount,
        },
    }
}

fn pend_on_each(
    pending: &mut Vec<PendingEffect>,
    processors: &[Processor],
    place: ProbedLine,
    number: u64,
    amount: u64,
) -> Result<(), AllocError>
    ensures { OnOk result (pending.new.items
        ≡ pend_on_each pending.old.items processors.now place number amount) }
{
    for processor in processors {
        if is_member(number, *processor) {
            pending.push(extra_effect(place, amount, *processor))?;
        }
    }
    Ok(())
}

fn pend_total(
    pending: &mut Vec<PendingEffect>,
    place: ProbedLine,
    number: u64,
    amount: u64,
) -> Result<(), AllocError>
    ensures { OnOk result (pending.new.items ≡ pend_total pending.old.items place number amount) }
{
    pending.push(PendingEffect {
        place,
        effect: Effect::Adds {
            sum: UnlockedSum::TotalBw(number),
            amount,
        },
    })?;
    Ok(())
}

/// A bandwidth comes back (`__dl_sub`).
fn pend_freed(
    pending: &mut Vec<PendingEffect>,
    processors: &[Processor],
    place: ProbedLine,
    number: u64,
    freed: Option<u64>,
) -> Result<(), AllocError>
    ensures { OnOk result (pending.new.items
        ≡ pend_freed pending.old.items processors.now place number freed) }
{
    match freed {
        None => Ok(()),
        Some(bw) => {
            let part = share(bw, count_members(processors, number) as u64);
            pend_on_each(pending, processors, place, number, part)?;
            pend_total(pending, place, number, 0u64.wrapping_sub(bw))
        }
    }
}

/// A bandwidth is taken (`__dl_add`).
fn pend_taken(
    pending: &mut Vec<PendingEffect>,
    processors: &[Processor],
    place: ProbedLine,
    number: u64,
    taken: Option<u64>,
) -> Result<(), AllocError>
    ensures { OnOk result (pending.new.items
        ≡ pend_taken pending.old.items processors.now place number taken) }
{
    match taken {
        None => Ok(()),
        Some(bw) => {
            let part = share(bw, count_members(processors, number) as u64);
            pend_on_each(pending, processors, place, number, 0u64.wrapping_sub(part))?;
            pend_total(pending, place, number, bw)
        }
    }
}

fn forgets_extra(processors: &[Processor], runqueue: Runqueue) -> Runqueue
    ensures { result ≡ forgets_extra processors.now runqueue }
{
    if has_members(processors, domain_of(processors, runqueue.cpu)) {
        runqueue
    } else {
        with_no_extra(runqueue)
    }
}

fn forget_others(runqueues: &mut [Runqueue], processors: &[Processor])
    ensures { runqueues.new ≡ map (forgets_extra processors.now) runqueues.old }
{
    for one in runqueues.iter_mut() {
        *one = forgets_extra(processors, *one);
    }
}

/// The capacity of a CPU: full where no note tells it.
fn capacity(processor: Processor) -> u64
    ensures { result ≡ capacity_in processor }
{
    match processor.capacity {
        None => 1024,
        Some(capacity) => capacity,
    }
}

fn is_counted(domain: Option<u64>, processor: Processor) -> bool
    ensures { result ≡ is_counted domain processor }
{
    match domain {
        None => true,
        Some(number) => is_member(number, processor),
    }
}

fn capacity_of(processors: &[Processor], domain: Option<u64>) -> u64
    ensures { result ≡ domain_capacity processors.now domain }
{
    let mut sum: u64 = 0;
    for processor in processors {
        if is_counted(domain, *processor) {
            sum = sum.wrapping_add(capacity(*processor));
        }
    }
    sum
}

impl Run {
    /// The root domain of a CPU, if it is known.
    pub fn domain_of(&self, cpu: u32) -> Option<u64>
        ensures { result ≡ domain_of (state_of self.now).processors cpu }
    {
        domain_of(self.processors.as_slice(), cpu)
    }

    /// Whether an active CPU is of the root domain of this number.
    pub fn has_members(&self, number: u64) -> bool
        ensures { result ≡ list_any (is_member number) (state_of self.now).processors }
    {
        has_member(self.processors.as_slice(), number)
    }

    /// The capacities of the CPUs of a CPU's root domain, or of all where it is not known, in units of 2^-10 of the fastest.
    pub fn domain_capacity(&self, cpu: u32) -> u64
        ensures { result ≡ domain_capacity (state_of self.now).processors
            (domain_of (state_of self.now).processors cpu) }
    {
        capacity_of(
            self.processors.as_slice(),
            domain_of(self.processors.as_slice(), cpu),
        )
    }

    fn forget_others(&mut self)
        ensures state { state_of self.new ≡ forget_others (state_of self.old) }
        ensures first { (state_of self.new).first ≡ (state_of self.old).first }
    {
        forget_others(self.runqueues.as_mut_slice(), self.processors.as_slice());
    }

    fn share_by(
        &mut self,
        place: ProbedLine,
        domain: Option<u64>,
        change: SumsChange,
    ) -> Result<(), AllocError>
        ensures state { OnOk result (state_of self.new ≡ share_by (state_of self.old) place domain change) }
        ensures first { OnOk result ((state_of self.new).first ≡ (state_of self.old).first) }
    {
        match domain {
            None => {
                self.forget_others();
                Ok(())
            }
            Some(number) => {
                if !has_member(self.processors.as_slice(), number) {
                    self.forget_others();
                    return Ok(());
                }
                pend_freed(
                    &mut self.pending,
                    self.processors.as_slice(),
                    place,
                    number,
                    change.freed,
                )?;
                pend_taken(
                    &mut self.pending,
                    self.processors.as_slice(),
                    place,
                    number,
                    change.taken,
                )
            }
        }
    }

    /// What an event of a task of this CPU gives back to and takes from its root domain is pending.
    pub fn share(
        &mut self,
        place: ProbedLine,
        cpu: u32,
        change: SumsChange,
    ) -> Result<(), AllocError>
        ensures state { OnOk result (state_of self.new ≡ share_in (state_of self.old) place cpu change) }
        ensures first { OnOk result ((state_of self.new).first ≡ (state_of self.old).first) }
    {
        if change.freed.is_some() || change.taken.is_some() {
            let domain = self.domain_of(cpu);
            self.share_by(place, domain, change)
        } else {
            Ok(())
        }
    }
}
