//! A record, played.

ghost use Rattle.std.specs.Prelude.{◌≡◌, IfOk, OnOk, drop};
ghost use Rattle.timer_play.specs.Playing.{left_after, observations_of, played, told_until};
ghost use Rattle.timer_play.specs.States.{state_of};

use crate::machine::{RecordOutcome, TimedMachine, Watch};
use crate::setup::{RecordSetup, RecordStart};
use std::alloc::{AllocError, Global};
use timer_record::{KeptLines, TaskNote};

/// Plays the lines of a record by the kernel's rules, and observes its timers: those that are at most `within` nanoseconds from the
/// prediction agree.
#[tactic(auto, unfolding(crate::specs::Playing::observations_of))]
pub fn play(
    alloc: Global,
    setup: RecordSetup,
    start: &RecordStart,
    lines: &KeptLines,
    within: u64,
    watch: Option<Watch>,
) -> Result<RecordOutcome, AllocError>
    ensures { IfOk result (λ o. o.observations.items
        ≡ observations_of setup start.now lines.now within) }
{
    let mut machine = TimedMachine::new(alloc, setup, start, lines, within, watch)?;
    play_lines(&mut machine, lines)?;
    Ok(machine.finish())
}

/// Plays each line, after the notes whose moments have come.
fn play_lines(machine: &mut TimedMachine, lines: &KeptLines) -> Result<(), AllocError>
    ensures { OnOk result (state_of machine.new
        ≡ played lines.now.tasks.items lines.now.told.items lines.now.kept.items
        (state_of machine.old)) }
{
    let mut come = 0usize;
    for kept in &lines.kept {
        come = tell_until(machine, lines, come, kept.at);
        machine.step(lines, *kept)?;
    }
    Ok(())
}

/// Tells the notes from a place on whose moments have come; the place after them.
pub fn tell_until(machine: &mut TimedMachine, lines: &KeptLines, come: usize, at: u64) -> usize
    ensures state { state_of machine.new
        ≡ told_until at (drop come lines.now.told.items) (state_of machine.old) }
    ensures rest { drop result lines.now.told.items
        ≡ left_after at (drop come lines.now.told.items) }
{
    tell_some(machine, &lines.told, come, at)
}

fn tell_some(machine: &mut TimedMachine, told: &[TaskNote], come: usize, at: u64) -> usize
    ensures state { state_of machine.new
        ≡ told_until at (drop come told.now) (state_of machine.old) }
    ensures rest { drop result told.now ≡ left_after at (drop come told.now) }
{
    for i in come..told.len() {
        let x = told[i];
        if x.moment > at {
            return i;
        }
        machine.tell(x);
    }
    told.len()
}
