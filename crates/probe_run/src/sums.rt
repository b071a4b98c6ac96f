//! What is known of sums, and what changes them.

ghost use Rattle.std.specs.Prelude.{◌≡◌, ◌<◌, OnOk, IfSome, length, map, position};
ghost use Rattle.std.specs.List.{list_any};
ghost use Rattle.probe_run.specs.Runs.{state_of};
ghost use Rattle.probe_run.specs.Sums.{is_on, is_domain, moved, changed_runqueue, forgotten, without_extra, without_total, runqueue_of, keep_runqueue, root_domain_of, keep_domain, sum_of, put_sum, change, forget, forget_all, forget_unlocked, opened};

use crate::run::Run;
use crate::waiting::UnlockedSum;
use kernel_rules::SumsChange;
use std::alloc::AllocError;

/// How long a call that changes sums by no rule of a task leaves them unknown, in nanoseconds.
const OPEN: u64 = 100_000_000;

/// The sums of a CPU's runqueue, as far as lines have shown them.
#[derive(Clone, Copy)]
pub struct Runqueue {
    pub cpu: u32,
    pub this_bw: Option<u64>,
    pub running_bw: Option<u64>,
    pub extra_bw: Option<u64>,

    /// Until this moment `this_bw` and `running_bw` are open.
    pub open_until: u64,
}

/// A root domain's `total_bw`, once a line has shown it.
#[derive(Clone, Copy)]
pub struct RootDomain {
    pub number: u64,
    pub total_bw: Option<u64>,
}

pub(crate) fn queue_place(runqueues: &[Runqueue], cpu: u32) -> Option<usize>
    ensures place { result ≡ position (is_on cpu) runqueues.now }
    ensures bound { IfSome result (λ place. place < length runqueues.now) }
{
    runqueues.iter().position(|one| one.cpu == cpu)
}

fn domain_place(domains: &[RootDomain], number: u64) -> Option<usize>
    ensures place { result ≡ position (is_domain number) domains.now }
    ensures bound { IfSome result (λ place. place < length domains.now) }
{
    domains.iter().position(|one| one.number == number)
}

pub(crate) fn moved_by(known: Option<u64>, amount: u64) -> Option<u64>
    ensures { result ≡ moved known amount }
{
    match known {
        Some(value) => Some(value.wrapping_add(amount)),
        None => None,
    }
}

fn changed(runqueue: Runqueue, change: SumsChange) -> Runqueue
    ensures { result ≡ changed_runqueue runqueue change }
{
    Runqueue {
        this_bw: moved_by(runqueue.this_bw, change.this_bw),
        running_bw: moved_by(runqueue.running_bw, change.running_bw),
        ..runqueue
    }
}

fn unknown(runqueue: Runqueue) -> Runqueue
    ensures { result ≡ forgotten runqueue }
{
    Runqueue {
        this_bw: None,
        running_bw: None,
        ..runqueue
    }
}

pub(crate) fn with_no_extra(runqueue: Runqueue) -> Runqueue
    ensures { result ≡ without_extra runqueue }
{
    Runqueue {
        extra_bw: None,
        ..runqueue
    }
}

fn with_no_total(domain: RootDomain) -> RootDomain
    ensures { result ≡ without_total domain }
{
    RootDomain {
        total_bw: None,
        ..domain
    }
}

fn forget_each(runqueues: &mut [Runqueue])
    ensures { runqueues.new ≡ map forgotten runqueues.old }
{
    for one in runqueues.iter_mut() {
        *one = unknown(*one);
    }
}

fn forget_each_extra(runqueues: &mut [Runqueue])
    ensures { runqueues.new ≡ map without_extra runqueues.old }
{
    for one in runqueues.iter_mut() {
        *one = with_no_extra(*one);
    }
}

fn forget_each_total(domains: &mut [RootDomain])
    ensures { domains.new ≡ map without_total domains.old }
{
    for one in domains.iter_mut() {
        *one = with_no_total(*one);
    }
}

impl Run {
    /// What is known of the runqueue of this CPU.
    pub fn runqueue(&self, cpu: u32) -> Runqueue
        ensures { result ≡ runqueue_of (state_of self.now) cpu }
    {
        let unknown = Runqueue {
            cpu,
            this_bw: None,
            running_bw: None,
            extra_bw: None,
            open_until: self.amid_until,
        };
        match queue_place(self.runqueues.as_slice(), cpu) {
            Some(place) => match self.runqueues.get(place) {
                Some(runqueue) => *runqueue,
                None => unknown,
            },
            None => unknown,
        }
    }

    /// Keeps what is known of a runqueue.
    pub fn keep_runqueue(&mut self, runqueue: Runqueue) -> Result<(), AllocError>
        ensures state { OnOk result (state_of self.new ≡ keep_runqueue (state_of self.old) runqueue) }
        ensures first { OnOk result ((state_of self.new).first ≡ (state_of self.old).first) }
    {
        match queue_place(self.runqueues.as_slice(), runqueue.cpu) {
            Some(place) => {
                self.runqueues[place] = runqueue;
                Ok(())
            }
            None => {
                self.runqueues.push(runqueue)?;
                Ok(())
            }
        }
    }

    /// What is known of the root domain of this number.
    pub fn root_domain(&self, number: u64) -> RootDomain
        ensures { result ≡ root_domain_of (state_of self.now) number }
    {
        let unknown = RootDomain {
            number,
            total_bw: None,
        };
        match domain_place(self.domains.as_slice(), number) {
            Some(place) => match self.domains.get(place) {
                Some(domain) => *domain,
                None => unknown,
            },
            None => unknown,
        }
    }

    fn keep_domain(&mut self, domain: RootDomain) -> Result<(), AllocError>
        ensures state { OnOk result (state_of self.new ≡ keep_domain (state_of self.old) domain) }
        ensures first { OnOk result ((state_of self.new).first ≡ (state_of self.old).first) }
    {
        match domain_place(self.domains.as_slice(), domain.number) {
            Some(place) => {
                self.domains[place] = domain;
                Ok(())
            }
            None => {
                self.domains.push(domain)?;
                Ok(())
            }
        }
    }

    /// What is known of a sum that is read without its lock.
    pub fn sum(&self, sum: UnlockedSum) -> Option<u64>
        ensures { result ≡ sum_of (state_of self.now) sum }
    {
        match sum {
            UnlockedSum::ExtraBw(cpu) => self.runqueue(cpu).extra_bw,
            UnlockedSum::TotalBw(number) => self.root_domain(number).total_bw,
        }
    }

    pub(crate) fn put_sum(&mut self, sum: UnlockedSum, value: Option<u64>) -> Result<(), AllocError>
        ensures state { OnOk result (state_of self.new ≡ put_sum (state_of self.old) sum value) }
        ensures first { OnOk result ((state_of self.new).first ≡ (state_of self.old).first) }
    {
        match sum {
            UnlockedSum::ExtraBw(cpu) => {
                let runqueue = self.runqueue(cpu);
                self.keep_runqueue(Runqueue {
                    extra_bw: value,
                    ..runqueue
                })
            }
            UnlockedSum::TotalBw(number) => self.keep_domain(RootDomain {
                number,
                total_bw: value,
            }),
        }
    }

    /// Changes `this_bw` and `running_bw` of a runqueue.
    pub fn change(&mut self, cpu: u32, by: SumsChange) -> Result<(), AllocError>
        ensures state { OnOk result (state_of self.new ≡ change (state_of self.old) cpu by) }
        ensures first { OnOk result ((state_of self.new).first ≡ (state_of self.old).first) }
    {
        let runqueue = self.runqueue(cpu);
        self.keep_runqueue(changed(runqueue, by))
    }

    /// `this_bw` and `running_bw` of a runqueue are unknown.
    pub fn forget(&mut self, cpu: u32) -> Result<(), AllocError>
        ensures state { OnOk result (state_of self.new ≡ forget (state_of self.old) cpu) }
        ensures first { OnOk result ((state_of self.new).first ≡ (state_of self.old).first) }
    {
        let runqueue = self.runqueue(cpu);
        self.keep_runqueue(unknown(runqueue))
    }

    /// `this_bw` and `running_bw` of all runqueues are unknown.
    pub fn forget_all(&mut self)
        ensures state { state_of self.new ≡ forget_all (state_of self.old) }
        ensures first { (state_of self.new).first ≡ (state_of self.old).first }
    {
        forget_each(self.runqueues.as_mut_slice());
    }

    /// `extra_bw` of all runqueues and `total_bw` of all root domains are unknown.
    pub fn forget_unlocked(&mut self)
        ensures state { state_of self.new ≡ forget_unlocked (state_of self.old) }
        ensures first { (state_of self.new).first ≡ (state_of self.old).first }
    {
        forget_each_extra(self.runqueues.as_mut_slice());
        forget_each_total(self.domains.as_mut_slice());
    }

    /// A call changes sums by no rule of a task: `extra_bw` and `total_bw` are open from now on.
    pub fn open(&mut self)
        ensures state { state_of self.new ≡ opened (state_of self.old) }
        ensures first { (state_of self.new).first ≡ (state_of self.old).first }
    {
        self.forget_unlocked();
        self.claims.clear();
        self.open_until = self.moment.wrapping_add(OPEN);
    }
}
