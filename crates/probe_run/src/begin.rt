//! What a line changes whatever its function is.

ghost use Rattle.std.specs.Prelude.{◌≡◌, ◌<◌, ◌++◌, ◌∷◌, [], OnOk, true, IfSome, filter, map, length, position, slice_get};
ghost use Rattle.std.specs.List.{list_any};
ghost use Rattle.probe_run.specs.Runs.{state_of};
ghost use Rattle.probe_run.specs.Begin.{is_of_cpu, begun_dequeue, is_rest_of_other, is_older_of_other, stays_pending, begun, claim_in, begin_open_dequeue, await_enqueue, again_dequeue, pend_lock, pend_return, pend_offline, own_timer, without_timer_to_arm, sums_open, shown_queue, queue_read, sums_read, queue_opened, sap_opened, with_older, processor_of, keep_processor, with_domain, with_active};

use crate::rules::{PlayRules, Processor};
use crate::run::Run;
use crate::sharing::processor_place;
use crate::sums::Runqueue;
use crate::waiting::{
    Awaits, Claim, Effect, OlderDequeue, OpenDequeue, PendingEffect, TimerToArm, UnlockedSum,
    moves_offline,
};
use kernel_rules::Delayed;
use probe_findings::ProbedLine;
use std::alloc::AllocError;
use trace_data::Sums;

fn is_among(cpus: &[u32], cpu: u32) -> bool
    ensures { result ≡ list_any (is_of_cpu cpu) cpus.now }
{
    cpus.iter().any(|one| *one == cpu)
}

fn without_wait(rest: OpenDequeue, by: u32) -> OpenDequeue
    ensures { result ≡ begun_dequeue by rest }
{
    if rest.place.cpu == by {
        OpenDequeue {
            awaits: Awaits::Nothing,
            ..rest
        }
    } else {
        rest
    }
}

fn begin_open_dequeues(open_dequeues: &mut [OpenDequeue], by: u32)
    ensures { open_dequeues.new ≡ map (begun_dequeue by) open_dequeues.old }
{
    for one in open_dequeues.iter_mut() {
        *one = without_wait(*one, by);
    }
}

fn is_rest_of_other(rest: OpenDequeue, by: u32) -> bool
    ensures { result ≡ is_rest_of_other by rest }
{
    !(rest.place.cpu == by)
}

fn is_older_of_other(older: OlderDequeue, by: u32) -> bool
    ensures { result ≡ is_older_of_other by older }
{
    !(older.by == by)
}

fn drop_open_dequeues(open_dequeues: &mut Vec<OpenDequeue>, by: u32)
    ensures { open_dequeues.new.items ≡ filter (is_rest_of_other by) open_dequeues.old.items }
{
    open_dequeues.retain(|one| is_rest_of_other(*one, by));
}

fn drop_older_dequeues(older_dequeues: &mut Vec<OlderDequeue>, by: u32)
    ensures { older_dequeues.new.items ≡ filter (is_older_of_other by) older_dequeues.old.items }
{
    older_dequeues.retain(|one| is_older_of_other(*one, by));
}

fn stays_pending(pending: PendingEffect, by: u32) -> bool
    ensures { result ≡ stays_pending by pending }
{
    !(pending.place.cpu == by && moves_offline(pending.effect))
}

fn drop_offline(pending: &mut Vec<PendingEffect>, by: u32)
    ensures { pending.new.items ≡ filter (stays_pending by) pending.old.items }
{
    pending.retain(|one| stays_pending(*one, by));
}

fn with_wait(rest: OpenDequeue, by: u32) -> OpenDequeue
    ensures { result ≡ again_dequeue by rest }
{
    if rest.place.cpu == by {
        OpenDequeue {
            awaits: Awaits::Enqueue,
            ..rest
        }
    } else {
        rest
    }
}

fn await_in(open_dequeues: &mut [OpenDequeue], by: u32)
    ensures { open_dequeues.new ≡ map (again_dequeue by) open_dequeues.old }
{
    for one in open_dequeues.iter_mut() {
        *one = with_wait(*one, by);
    }
}

impl Run {
    /// Whether this CPU wrote a line before, but of charges and timers.
    pub fn has_written(&self, cpu: u32) -> bool
        ensures { result ≡ list_any (is_of_cpu cpu) (state_of self.now).wrote }
    {
        is_among(self.wrote.as_slice(), cpu)
    }

    /// A line begins: dequeues of its CPU wait for it no more, and none of its timers moves a task; `drops_older_dequeues` but for lines of timers and marks, `writes` but for
    /// lines of charges and timers.
    pub fn begin(
        &mut self,
        place: ProbedLine,
        drops_older_dequeues: bool,
        writes: bool,
    ) -> Result<(), AllocError>
        ensures state { OnOk result (state_of self.new
            ≡ begun (state_of self.old) place.cpu place.at drops_older_dequeues writes) }
        ensures first { OnOk result ((state_of self.new).first ≡ (state_of self.old).first) }
    {
        drop_offline(&mut self.pending, place.cpu);
        begin_open_dequeues(self.open_dequeues.as_mut_slice(), place.cpu);
        drop_open_dequeues(&mut self.early, place.cpu);
        if drops_older_dequeues {
            drop_older_dequeues(&mut self.older_dequeues, place.cpu);
        }
        self.moment = place.at;
        if writes && !is_among(self.wrote.as_slice(), place.cpu) {
            self.wrote.push(place.cpu)?;
        }
        Ok(())
    }

    /// A call has read this value of a sum; nothing is claimed of what is open.
    pub fn claim(
        &mut self,
        place: ProbedLine,
        sum: UnlockedSum,
        value: u64,
    ) -> Result<(), AllocError>
        ensures state { OnOk result (state_of self.new ≡ claim_in (state_of self.old) place sum value) }
        ensures first { OnOk result ((state_of self.new).first ≡ (state_of self.old).first) }
    {
        if self.moment <= self.open_until {
            return Ok(());
        }
        self.claims.push(Claim { place, sum, value })?;
        Ok(())
    }

    /// A runqueue as a line shows it, where it is not open.
    fn shown_queue(&self, cpu: u32, shown: Sums) -> Runqueue
        ensures { result ≡ shown_queue (state_of self.now) cpu shown }
    {
        let runqueue = self.runqueue(cpu);
        if self.are_sums_open(cpu) {
            runqueue
        } else {
            Runqueue {
                this_bw: Some(shown.this_bw),
                running_bw: Some(shown.running_bw),
                ..runqueue
            }
        }
    }

    fn read_queue(&mut self, cpu: u32, shown: Sums) -> Result<(), AllocError>
        ensures state { OnOk result (state_of self.new ≡ queue_read (state_of self.old) cpu shown) }
        ensures first { OnOk result ((state_of self.new).first ≡ (state_of self.old).first) }
    {
        let runqueue = self.shown_queue(cpu, shown);
        self.keep_runqueue(runqueue)
    }

    fn read_whole(&mut self, place: ProbedLine, cpu: u32, shown: Sums) -> Result<(), AllocError>
        ensures state { OnOk result (state_of self.new ≡ sums_read (state_of self.old) place cpu shown) }
        ensures first { OnOk result ((state_of self.new).first ≡ (state_of self.old).first) }
    {
        self.read_queue(cpu, shown)?;
        self.claim(place, UnlockedSum::ExtraBw(cpu), shown.extra_bw)
    }

    /// The sums of a line are known from here on, and its `extra_bw` is a claim.
    pub fn read_sums(
        &mut self,
        rules: PlayRules,
        place: ProbedLine,
        cpu: u32,
        shown: Sums,
    ) -> Result<(), AllocError>
        ensures state { OnOk result (rules.has_dequeues ≡ true → state_of self.new
            ≡ sums_read (state_of self.old) place cpu shown) }
        ensures first { OnOk result ((state_of self.new).first ≡ (state_of self.old).first) }
    {
        if rules.has_dequeues {
            self.read_whole(place, cpu, shown)
        } else {
            self.take_sums(cpu, shown)
        }
    }

    /// Of a record without dequeues each line's sums are taken.
    fn take_sums(&mut self, cpu: u32, shown: Sums) -> Result<(), AllocError>
        ensures { OnOk result ((state_of self.new).first ≡ (state_of self.old).first) }
    {
        let runqueue = self.runqueue(cpu);
        self.keep_runqueue(Runqueue {
            this_bw: Some(shown.this_bw),
            running_bw: Some(shown.running_bw),
            extra_bw: Some(shown.extra_bw),
            ..runqueue
        })
    }

    /// Whether `this_bw` and `running_bw` of a runqueue are open.
    pub fn are_sums_open(&self, cpu: u32) -> bool
        ensures { result ≡ sums_open (state_of self.now) cpu }
    {
        self.moment <= self.runqueue(cpu).open_until
    }

    /// A dequeue begins.
    pub fn begin_open_dequeue(&mut self, rest: OpenDequeue) -> Result<(), AllocError>
        ensures state { OnOk result (state_of self.new ≡ begin_open_dequeue (state_of self.old) rest) }
        ensures first { OnOk result ((state_of self.new).first ≡ (state_of self.old).first) }
    {
        self.open_dequeues.push(rest)?;
        Ok(())
    }

    /// The dequeue of this CPU waits for an enqueue, where it is told so.
    pub fn await_enqueue(&mut self, by: u32, again: bool)
        ensures state { state_of self.new ≡ await_enqueue (state_of self.old) by again }
        ensures first { (state_of self.new).first ≡ (state_of self.old).first }
    {
        if again {
            await_in(self.open_dequeues.as_mut_slice(), by);
        }
    }

    /// A function waits for the lock of a runqueue.
    pub fn pend_lock(
        &mut self,
        place: ProbedLine,
        cpu: u32,
        entity: usize,
        delayed: Delayed,
    ) -> Result<(), AllocError>
        ensures state { OnOk result (state_of self.new
            ≡ pend_lock (state_of self.old) place cpu entity delayed) }
        ensures first { OnOk result ((state_of self.new).first ≡ (state_of self.old).first) }
    {
        self.pending.push(PendingEffect {
            place,
            effect: Effect::Locks {
                cpu,
                entity,
                delayed,
            },
        })?;
        Ok(())
    }

    /// The handler of the inactive timer of this entity runs, until it returns.
    pub fn pend_return(&mut self, place: ProbedLine, entity: usize) -> Result<(), AllocError>
        ensures state { OnOk result (state_of self.new
            ≡ pend_return (state_of self.old) place entity) }
        ensures first { OnOk result ((state_of self.new).first ≡ (state_of self.old).first) }
    {
        self.pending.push(PendingEffect {
            place,
            effect: Effect::Returns { entity },
        })?;
        Ok(())
    }

    /// A task whose CPU went is moved to another one, before its enqueue.
    pub fn pend_offline(&mut self, place: ProbedLine) -> Result<(), AllocError>
        ensures state { OnOk result (state_of self.new ≡ pend_offline (state_of self.old) place) }
        ensures first { OnOk result ((state_of self.new).first ≡ (state_of self.old).first) }
    {
        self.pending.push(PendingEffect {
            place,
            effect: Effect::MovesOffline,
        })?;
        Ok(())
    }

    /// The timer at this address is of the entity of this number.
    pub fn own_timer(&mut self, address: u64, number: usize) -> Result<(), AllocError>
        ensures state { OnOk result (state_of self.new ≡ own_timer (state_of self.old) address number) }
        ensures first { OnOk result ((state_of self.new).first ≡ (state_of self.old).first) }
    {
        self.timers.insert(address, number)?;
        Ok(())
    }

    /// A timer that was to be armed is.
    pub fn drop_timer_to_arm(&mut self, index: usize)
        ensures state { state_of self.new ≡ without_timer_to_arm (state_of self.old) index }
        ensures first { (state_of self.new).first ≡ (state_of self.old).first }
    {
        if index < self.timers_to_arm.len() {
            self.timers_to_arm.remove(index);
        }
    }

    fn open_queue(&mut self, cpu: u32) -> Result<(), AllocError>
        ensures state { OnOk result (state_of self.new ≡ queue_opened (state_of self.old) cpu) }
        ensures first { OnOk result ((state_of self.new).first ≡ (state_of self.old).first) }
    {
        let runqueue = self.runqueue(cpu);
        self.keep_runqueue(Runqueue {
            this_bw: None,
            running_bw: None,
            open_until: self.open_until,
            ..runqueue
        })
    }

    /// A fair server's parameters change (`dl_server_apply_params`): all sums of its runqueue are open.
    pub fn open_runqueue(&mut self, cpu: u32) -> Result<(), AllocError>
        ensures state { OnOk result (state_of self.new ≡ sap_opened (state_of self.old) cpu) }
        ensures first { OnOk result ((state_of self.new).first ≡ (state_of self.old).first) }
    {
        self.open();
        self.open_queue(cpu)
    }

    /// This CPU dequeues a task of before the record, whose timer it may arm.
    pub fn begin_older_dequeue(&mut self, by: u32, entity: usize) -> Result<(), AllocError>
        ensures state { OnOk result (state_of self.new ≡ with_older (state_of self.old) by entity) }
        ensures first { OnOk result ((state_of self.new).first ≡ (state_of self.old).first) }
    {
        self.older_dequeues.push(OlderDequeue { by, entity })?;
        Ok(())
    }

    /// The timer of this place that is to be armed.
    pub fn timer_to_arm(&self, index: usize) -> Option<TimerToArm>
        ensures { result ≡ slice_get (state_of self.now).timers_to_arm index }
    {
        self.timers_to_arm.get(index).copied()
    }

    /// What is known of a CPU.
    pub fn processor(&self, cpu: u32) -> Processor
        ensures { result ≡ processor_of (state_of self.now) cpu }
    {
        let unknown = Processor {
            cpu,
            domain: None,
            is_active: true,
            capacity: None,
        };
        match processor_place(self.processors.as_slice(), cpu) {
            Some(index) => match self.processors.get(index) {
                Some(processor) => *processor,
                None => unknown,
            },
            None => unknown,
        }
    }

    fn keep_processor(&mut self, processor: Processor) -> Result<(), AllocError>
        ensures state { OnOk result (state_of self.new ≡ keep_processor (state_of self.old) processor) }
        ensures first { OnOk result ((state_of self.new).first ≡ (state_of self.old).first) }
    {
        match processor_place(self.processors.as_slice(), processor.cpu) {
            Some(index) => {
                self.processors[index] = processor;
                Ok(())
            }
            None => {
                self.processors.push(processor)?;
                Ok(())
            }
        }
    }

    /// The root domain of a CPU is this one from now on.
    pub fn attach(&mut self, cpu: u32, number: u64) -> Result<(), AllocError>
        ensures state { OnOk result (state_of self.new ≡ with_domain (state_of self.old) cpu number) }
        ensures first { OnOk result ((state_of self.new).first ≡ (state_of self.old).first) }
    {
        let processor = self.processor(cpu);
        self.keep_processor(Processor {
            domain: Some(number),
            ..processor
        })
    }

    /// A CPU becomes active, or is no longer.
    pub fn set_active(&mut self, cpu: u32, is_active: bool) -> Result<(), AllocError>
        ensures state { OnOk result (state_of self.new ≡ with_active (state_of self.old) cpu is_active) }
        ensures first { OnOk result ((state_of self.new).first ≡ (state_of self.old).first) }
    {
        let processor = self.processor(cpu);
        self.keep_processor(Processor {
            is_active,
            ..processor
        })
    }
}
