//! The tasks and runqueues of a record before its first line.

ghost use Rattle.std.specs.Prelude.{◌≡◌, IfOk, None, fold, is_some, map, max, position};
ghost use Rattle.std.specs.List.{range_with_len};
ghost use Rattle.timer_play.specs.Opening.{first_owner, first_runqueue, first_state, cpus_of, later_of, opened, runs_at_first, server_owner, starts_server, starts_with_start, task_owner, told_runqueue, untold_runqueue};
ghost use Rattle.timer_play.specs.States.{state_of};
ghost use Rattle.timer_tasks.specs.Tasks.{unseen_task};

use crate::counts::TimerRuleCounts;
use crate::machine::{Owner, TimedMachine, Watch};
use crate::place::is_it;
use crate::setup::{RecordSetup, RecordStart, RunqueueSums};
use crate::terms::PlayTerms;
use std::alloc::{AllocError, Global};
use timer_record::{AddressLines, FirstLine, KeptLines, TaskLines, TimerLines};
use timer_tasks::{DeadlineTask, Runqueue, ServerState, unseen};
use trace_data::Sums;

/// Whether a timer's first line is a start.
fn begins_with_start(first: Option<FirstLine>) -> bool
    ensures { result ≡ starts_with_start first }
{
    match first {
        Some(FirstLine::Start) => true,
        Some(FirstLine::Another) | None => false,
    }
}

/// Whether an address is the fair server's of a CPU, and its first line a start.
fn is_started(address: &AddressLines, cpu: u32) -> bool
    ensures { result ≡ starts_server cpu address.now }
{
    !address.is_of_task() && is_it(address.cpu.winner(), cpu) && begins_with_start(address.first)
}

/// A fair server's state, which runs or does not.
fn state(runs: bool) -> ServerState
    ensures { result ≡ runs_at_first runs }
{
    if runs {
        ServerState::Active
    } else {
        ServerState::Stopped
    }
}

/// A runqueue of which no note tells.
fn untold(setup: &RecordSetup, cpu: u32, was_stopped: bool) -> Runqueue
    ensures { result ≡ untold_runqueue setup.now cpu was_stopped }
{
    let runs = setup.server_bw > 0 && !was_stopped;
    Runqueue {
        sums: Sums {
            this_bw: setup.server_bw,
            running_bw: if runs { setup.server_bw } else { 0 },
            extra_bw: setup.first_extra_bw(cpu),
        },
        server: state(runs),
        is_told: false,
    }
}

/// A runqueue of which a note tells the sums.
fn told(setup: &RecordSetup, sums: Sums) -> Runqueue
    ensures { result ≡ told_runqueue setup.now sums }
{
    Runqueue {
        sums,
        server: state(setup.server_bw > 0 && sums.running_bw >= setup.server_bw),
        is_told: true,
    }
}

/// The sums of a CPU that the last note of it tells.
fn sums_told(notes: &[RunqueueSums], cpu: u32) -> Option<RunqueueSums>
    ensures { result ≡ fold (later_of cpu) None notes.now }
{
    notes
        .iter()
        .fold(None, |found, note| later(cpu, found, *note))
}

/// The later of two notes that is of a CPU.
fn later(cpu: u32, found: Option<RunqueueSums>, note: RunqueueSums) -> Option<RunqueueSums>
    ensures { result ≡ later_of cpu found note }
{
    if note.cpu == cpu { Some(note) } else { found }
}

/// The address of a CPU's fair server that begins with a start, by its place.
fn first_start(addresses: &[AddressLines], cpu: u32) -> Option<usize>
    ensures { result ≡ position (starts_server cpu) addresses.now }
{
    addresses
        .iter()
        .position(|address| is_started(address, cpu))
}

/// Whether the timer of a CPU's fair server begins with a start: it was stopped before.
fn was_stopped(addresses: &[AddressLines], cpu: u32) -> bool
    ensures { result ≡ is_some (position (starts_server cpu) addresses.now) }
{
    first_start(addresses, cpu).is_some()
}

/// A runqueue as a record begins.
#[tactic(auto, unfolding(crate::specs::Opening::first_runqueue))]
fn first(
    setup: &RecordSetup,
    notes: &[RunqueueSums],
    addresses: &[AddressLines],
    cpu: u32,
) -> Runqueue
    ensures { result ≡ first_runqueue setup.now notes.now addresses.now cpu }
{
    match sums_told(notes, cpu) {
        Some(note) => told(setup, note.sums),
        None => untold(setup, cpu, was_stopped(addresses, cpu)),
    }
}

/// The greatest CPU of these.
fn greatest(cpus: &[u32]) -> u32
    ensures { result ≡ fold max 0 cpus.now }
{
    cpus.iter().fold(0, |most: u32, cpu| most.max(*cpu))
}

/// The greatest CPU of these notes.
fn greatest_told(notes: &[RunqueueSums]) -> u32
    ensures { result ≡ fold (λ most x. max most x.cpu) 0 notes.now }
{
    notes.iter().fold(0, |most: u32, note| most.max(note.cpu))
}

/// Each runqueue of a record, up to the greatest CPU of the root domain and of the notes.
fn runqueues(
    alloc: Global,
    setup: &RecordSetup,
    start: &RecordStart,
    addresses: &[AddressLines],
) -> Result<Vec<Runqueue>, AllocError>
    ensures { IfOk result (λ v. v.items
        ≡ map (first_runqueue setup.now start.now.sums.items addresses.now)
        (range_with_len 0 (cpus_of start.now))) }
{
    let last = greatest(&start.domain).max(greatest_told(&start.sums));
    (0..last.saturating_add(1))
        .map(|cpu| first(setup, &start.sums, addresses, cpu))
        .collect(alloc)
}

fn owner_of_task(number: Option<u32>) -> Owner
    ensures { result ≡ task_owner number }
{
    match number {
        Some(number) => Owner::Task(number),
        None => Owner::Nobody,
    }
}

fn owner_of_server(number: Option<u32>) -> Owner
    ensures { result ≡ server_owner number }
{
    match number {
        Some(number) => Owner::Server(number),
        None => Owner::Nobody,
    }
}

/// Whose a timer is from the beginning.
#[tactic(auto, unfolding(crate::specs::Opening::first_owner))]
fn first_owner_of(addresses: &[AddressLines], timer: &TimerLines) -> Owner
    ensures { result ≡ first_owner addresses.now timer.now }
{
    match addresses.get(timer.address as usize) {
        Some(address) => {
            if address.is_of_task() {
                owner_of_task(timer.task.winner())
            } else {
                owner_of_server(address.cpu.winner())
            }
        }
        None => Owner::Nobody,
    }
}

/// Whose each timer is from the beginning.
fn owners(
    alloc: Global,
    addresses: &[AddressLines],
    timers: &[TimerLines],
) -> Result<Vec<Owner>, AllocError>
    ensures { IfOk result (λ v. v.items ≡ map (first_owner addresses.now) timers.now) }
{
    timers
        .iter()
        .map(|timer| first_owner_of(addresses, timer))
        .collect(alloc)
}

/// The tasks, of which no line has shown one.
fn unseen_tasks(alloc: Global, tasks: &[TaskLines]) -> Result<Vec<DeadlineTask>, AllocError>
    ensures { IfOk result (λ v. v.items ≡ map (λ y. unseen_task) tasks.now) }
{
    tasks.iter().map(|_| unseen()).collect(alloc)
}

/// The machine with these tasks, runqueues and owners of timers.
#[tactic(auto, unfolding(crate::specs::Opening::opened))]
fn machine_of(
    alloc: Global,
    terms: PlayTerms,
    tasks: Vec<DeadlineTask>,
    runqueues: Vec<Runqueue>,
    owners: Vec<Owner>,
    watch: Option<Watch>,
) -> TimedMachine
    ensures { state_of result ≡ opened terms tasks.items runqueues.items owners.items }
{
    TimedMachine {
        terms,
        tasks,
        runqueues,
        taken: 0,
        owners,
        observations: Vec::new(alloc),
        counts: TimerRuleCounts::new(),
        charges: Vec::new(alloc),
        watch,
    }
}

impl TimedMachine {
    /// The machine before the first line.
    #[tactic(auto, unfolding(crate::specs::Opening::first_state))]
    pub fn new(
        alloc: Global,
        setup: RecordSetup,
        start: &RecordStart,
        lines: &KeptLines,
        within: u64,
        watch: Option<Watch>,
    ) -> Result<TimedMachine, AllocError>
        ensures { IfOk result (λ m. state_of m ≡ first_state setup start.now lines.now within) }
    {
        let tasks = unseen_tasks(alloc, &lines.tasks)?;
        let runqueues = runqueues(alloc, &setup, start, &lines.addresses)?;
        let owners = owners(alloc, &lines.addresses, &lines.timers)?;
        let terms = PlayTerms {
            setup,
            begins: lines.begins.unwrap_or(0),
            within,
            open_from: start.open_from,
        };
        Ok(machine_of(alloc, terms, tasks, runqueues, owners, watch))
    }
}
