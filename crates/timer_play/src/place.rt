//! Tasks and runqueues, by their numbers.

ghost use Rattle.std.specs.Prelude.{◌≡◌, slice_get, slice_set};
ghost use Rattle.timer_play.specs.Places.{at_cpu, sums_of};
ghost use Rattle.timer_tasks.specs.Effects.{served_of, with_of, without_of};
ghost use Rattle.timer_play.specs.States.{is_number, is_told_at, owner_by, server_by};

use crate::machine::Owner;
use timer_tasks::{BandwidthShare, DeadlineTask, Runqueue, ServerState, served, with, without};
use trace_data::Sums;

/// A task becomes another; the one before is given back.
#[tactic(auto, using(std::proofs::lemmas::Option::slice_get_past))]
pub(crate) fn set_task(
    tasks: &mut [DeadlineTask],
    number: u32,
    task: DeadlineTask,
) -> Option<DeadlineTask>
    ensures before { result ≡ slice_get tasks.old number }
    ensures after { tasks.new ≡ slice_set tasks.old number task }
{
    let place = number as usize;
    if place < tasks.len() {
        let before = tasks[place];
        tasks[place] = task;
        Some(before)
    } else {
        None
    }
}

/// The runqueue of a CPU loses what a task had in its sums.
#[tactic(auto, using(std::proofs::lemmas::Option::slice_get_past))]
pub(crate) fn lose(runqueues: &mut [Runqueue], cpu: u32, effect: BandwidthShare)
    ensures { runqueues.new ≡ at_cpu (λ r. without_of r effect) runqueues.old cpu }
{
    let place = cpu as usize;
    if place < runqueues.len() {
        runqueues[place] = without(runqueues[place], effect);
    }
}

/// The runqueue of a CPU gains what a task has in its sums.
#[tactic(auto, using(std::proofs::lemmas::Option::slice_get_past))]
pub(crate) fn gain(runqueues: &mut [Runqueue], cpu: u32, effect: BandwidthShare)
    ensures { runqueues.new ≡ at_cpu (λ r. with_of r effect) runqueues.old cpu }
{
    let place = cpu as usize;
    if place < runqueues.len() {
        runqueues[place] = with(runqueues[place], effect);
    }
}

/// The fair server of a CPU comes to another state.
#[tactic(auto, using(std::proofs::lemmas::Option::slice_get_past))]
pub(crate) fn serve_at(runqueues: &mut [Runqueue], cpu: u32, state: ServerState, server_bw: u64)
    ensures { runqueues.new ≡ at_cpu (λ r. served_of r state server_bw) runqueues.old cpu }
{
    let place = cpu as usize;
    if place < runqueues.len() {
        runqueues[place] = served(runqueues[place], state, server_bw);
    }
}

/// The sums of the runqueue of a CPU, from whose `extra_bw` so much is taken; zeros where there is none.
#[tactic(auto, using(std::proofs::lemmas::Option::slice_get_past))]
pub(crate) fn sums_at(runqueues: &[Runqueue], cpu: u32, taken: u64) -> Sums
    ensures { result ≡ sums_of (slice_get runqueues.now cpu) taken }
{
    let place = cpu as usize;
    if place < runqueues.len() {
        let sums = runqueues[place].sums;
        Sums {
            this_bw: sums.this_bw,
            running_bw: sums.running_bw,
            extra_bw: sums.extra_bw.wrapping_sub(taken),
        }
    } else {
        Sums {
            this_bw: 0,
            running_bw: 0,
            extra_bw: 0,
        }
    }
}

/// Whether a note told the sums of the runqueue of a CPU.
#[tactic(auto, using(std::proofs::lemmas::Option::slice_get_past))]
pub(crate) fn is_told(runqueues: &[Runqueue], cpu: u32) -> bool
    ensures { result ≡ is_told_at runqueues.now cpu }
{
    let place = cpu as usize;
    place < runqueues.len() && runqueues[place].is_told
}

/// The state of the fair server of a CPU.
#[tactic(auto, using(std::proofs::lemmas::Option::slice_get_past))]
pub(crate) fn server_of(runqueues: &[Runqueue], cpu: u32) -> ServerState
    ensures { result ≡ server_by (slice_get runqueues.now cpu) }
{
    let place = cpu as usize;
    if place < runqueues.len() {
        runqueues[place].server
    } else {
        ServerState::Stopped
    }
}

/// Whose a timer is.
#[tactic(auto, using(std::proofs::lemmas::Option::slice_get_past))]
pub(crate) fn owner_of(owners: &[Owner], timer: u32) -> Owner
    ensures { result ≡ owner_by (slice_get owners.now timer) }
{
    let place = timer as usize;
    if place < owners.len() {
        owners[place]
    } else {
        Owner::Nobody
    }
}

/// A timer has another owner.
#[tactic(auto, using(std::proofs::lemmas::Option::slice_get_past))]
pub(crate) fn set_owner(owners: &mut [Owner], timer: u32, owner: Owner)
    ensures { owners.new ≡ slice_set owners.old timer owner }
{
    let place = timer as usize;
    if place < owners.len() {
        owners[place] = owner;
    }
}

/// Whether there is a number, and it is this one.
pub(crate) fn is_it(number: Option<u32>, other: u32) -> bool
    ensures { result ≡ is_number number other }
{
    match number {
        Some(number) => number == other,
        None => false,
    }
}
