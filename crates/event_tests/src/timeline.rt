//! Time lines of event files against worked examples, and with refused growths.
ghost use Rattle.grub_timeline.specs.TimeLines.{AreWithin};

use grub_plan::{Plan, TextFault, line_of};
use grub_timeline::{PlayFault, Playing, TimeLine, play};
use grub_trace::{TraceFault, read_files};
use std::alloc::{AllocError, Global};

/// Why a test's files gave no text.
#[derive(Debug, Drop)]
enum Refusal {
    Memory(AllocError),
    Trace(TraceFault),
    Play(PlayFault),
    Text(TextFault),
}

/// Files of version 1 with a whole processor for each runqueue, and these lines.
fn files(alloc: Global, all: &[&[u8]]) -> Result<Vec<Vec<u8>>, AllocError> {
    let mut files = Vec::new(alloc);
    for lines in all {
        let mut file = Vec::new(alloc);
        file.extend_from_slice(b"grub 1\nqueue 1048576 0\n")?;
        file.extend_from_slice(lines)?;
        files.push(file)?;
    }
    Ok(files)
}

/// The plan of such files.
fn plan_of(alloc: Global, all: &[&[u8]]) -> Result<Plan, Refusal> {
    let files = files(alloc, all).map_err(Refusal::Memory)?;
    read_files(alloc, &files).map_err(Refusal::Trace)
}

/// Adds the number of an entry's runqueue, and its line.
fn push_entry(alloc: Global, text: &mut Vec<u8>, r: u32, line: &[u8]) -> Result<(), AllocError> {
    let number = format!(in alloc; "{r} ")?;
    text.extend_from_slice(number.as_bytes())?;
    text.extend_from_slice(line)
}

/// The lines of the entries, each after the number of its runqueue.
fn entries_text(alloc: Global, plan: &Plan, line: &TimeLine) -> Result<Vec<u8>, Refusal>
    requires { AreWithin plan.now.setup line.now.told.items }
{
    let mut text = Vec::new(alloc);
    for told in &line.told {
        let entry = line_of(alloc, plan, &told.entry).map_err(Refusal::Text)?;
        push_entry(alloc, &mut text, told.runqueue, &entry).map_err(Refusal::Memory)?;
    }
    Ok(text)
}

/// Adds the closing readings.
fn push_closing(alloc: Global, text: &mut Vec<u8>, line: &TimeLine) -> Result<(), AllocError> {
    for reading in &line.closing {
        let one = format!(in alloc; "close {} {}\n", reading.running, reading.this)?;
        text.extend_from_slice(one.as_bytes())?;
    }
    Ok(())
}

/// The entries and the closing readings of a plan.
fn play_plan(alloc: Global, plan: &Plan) -> Result<Vec<u8>, Refusal> {
    let line = play(alloc, plan).map_err(Refusal::Play)?;
    let mut text = entries_text(alloc, plan, &line)?;
    push_closing(alloc, &mut text, &line).map_err(Refusal::Memory)?;
    Ok(text)
}

/// The same of such files.
fn play_files(alloc: Global, all: &[&[u8]]) -> Result<Vec<u8>, Refusal> {
    let plan = plan_of(alloc, all)?;
    play_plan(alloc, &plan)
}

/// Whether such files have this text.
fn has_text(alloc: Global, all: &[&[u8]], text: &[u8]) -> bool {
    match play_files(alloc, all) {
        Ok(played) => played.as_slice() == text,
        Err(_) => false,
    }
}

const DOCUMENTATION: &[u8] =
    b"task T1 4 8\ntask T2 4 8\nat 0 join T1\nat 0 join T2\nat 0 run T1 2\nat 2 block T1\nat 2 run T2 2\nat 4 run T2 4\nat 8 wake T1\nat 8 read\n";

const DOCUMENTATION_LINES: &[u8] =
    b"0 at 0 join T1: joined q=4 d=8\n0 at 0 join T2: joined q=4 d=8\n0 at 0 run T1 2: charged dq=2 k=0 q=2 d=8\n0 at 2 block T1: waiting ticket=1 z=4\n0 at 2 run T2 2: charged dq=2 k=0 q=2 d=8\n0 at 4 timer T1 1: retired\n0 at 4 run T2 4: charged dq=2 k=1 q=4 d=16\n0 at 8 wake T1: woken q=4 d=16\n0 at 8 read: running=1048576 this=1048576\nclose 1048576 1048576\n";

#[test]
fn the_documentations_example(rt: HostRuntime) {
    assert!(rt; has_text(rt.alloc(), &[DOCUMENTATION], DOCUMENTATION_LINES));
}

const SHARED_0: &[u8] = b"task T 4 8\nat 0 join T\nat 0 run T 2\nat 2 block T\nat 9 read\n";

const SHARED_1: &[u8] = b"at 3 wake T\nat 3 read\n";

const SHARED_LINES: &[u8] =
    b"0 at 0 join T: joined q=4 d=8\n0 at 0 run T 2: charged dq=2 k=0 q=2 d=8\n0 at 2 block T: waiting ticket=1 z=4\n1 at 3 wake T: elsewhere 0\n1 at 3 leave T: left 0\n1 at 3 join T: joined q=2 d=8\n1 at 3 read: running=524288 this=524288\n0 at 9 read: running=0 this=0\nclose 0 0\nclose 524288 524288\n";

/// The wake moves the task, and takes its timer out.
#[test]
fn two_files_that_share_a_task(rt: HostRuntime) {
    assert!(rt; has_text(rt.alloc(), &[SHARED_0, SHARED_1], SHARED_LINES));
}

const TIMER_LINES: &[u8] =
    b"1 at 0 join T: joined q=4 d=8\n1 at 0 run T 2: charged dq=2 k=0 q=2 d=8\n1 at 2 block T: waiting ticket=1 z=4\n1 at 4 timer T 1: retired\n0 at 5 read: running=0 this=0\n1 at 9 read: running=0 this=524288\nclose 0 0\nclose 0 524288\n";

/// A timer is asked before another file's line, and is of the runqueue of its block.
#[test]
fn a_timer_of_another_file(rt: HostRuntime) {
    assert!(rt; has_text(rt.alloc(), &[b"at 5 read\n", SHARED_0], TIMER_LINES));
}

const ONE_MOMENT: [&[u8]; 3] = [
    b"at 2 read\n",
    b"task T 4 8\nat 0 join T\nat 0 run T 2\nat 2 block T\nat 2 read\n",
    b"at 1 read\nat 2 read\n",
];

const ONE_MOMENT_LINES: &[u8] =
    b"1 at 0 join T: joined q=4 d=8\n1 at 0 run T 2: charged dq=2 k=0 q=2 d=8\n2 at 1 read: running=0 this=0\n0 at 2 read: running=0 this=0\n1 at 2 block T: waiting ticket=1 z=4\n1 at 2 read: running=524288 this=524288\n2 at 2 read: running=0 this=0\nclose 0 0\nclose 524288 524288\nclose 0 0\n";

/// Lines of one moment go by file and then by line, and a timer that no line comes after is not asked.
#[test]
fn lines_of_one_moment(rt: HostRuntime) {
    assert!(rt; has_text(rt.alloc(), &ONE_MOMENT, ONE_MOMENT_LINES));
}

/// Whether the entries of a plan, played and exchanged, are those of its time line, and none are left.
fn exchanges(alloc: Global, plan: &Plan, line: &TimeLine) -> bool {
    let Ok(mut playing) = Playing::new(alloc, plan) else {
        return false;
    };
    let Ok(mut latest) = Vec::with_capacity(alloc, playing.most()) else {
        return false;
    };
    let is_played = playing.play_on();
    playing.exchange(&mut latest);
    is_played && playing.chunk().is_empty() && !playing.play_on() && latest == line.told
}

/// The same of such a file.
fn exchanges_of(alloc: Global, file: &[u8]) -> bool {
    let Ok(plan) = plan_of(alloc, &[file]) else {
        return false;
    };
    match play(alloc, &plan) {
        Ok(line) => exchanges(alloc, &plan, &line),
        Err(_) => false,
    }
}

/// Entries that were exchanged stay as they are while the rest is played.
#[test]
fn the_latest_entries_are_exchanged(rt: HostRuntime) {
    assert!(rt; exchanges_of(rt.alloc(), DOCUMENTATION));
}

#[test]
fn the_fault_prints_its_number(rt: HostRuntime) {
    let text = format!(in rt.alloc(); "{}", PlayFault::NoMemory);
    assert!(rt; text.is_ok_and(|it| it.as_str() == "48 NoMemory"));
}

/// Passes with each growth refused in turn: that is answered as want of memory, and else the text is the one with ample memory.
#[test]
fn refused_growths(rt: HostRuntime) {
    match play_files(rt.alloc(), &[SHARED_0, SHARED_1]) {
        Ok(text) => assert_eq!(rt; text.as_slice(), SHARED_LINES),
        Err(
            Refusal::Memory(_)
            | Refusal::Trace(TraceFault::NoMemory)
            | Refusal::Text(TextFault::NoMemory)
            | Refusal::Play(PlayFault::NoMemory),
        ) => {}
        Err(_) => panic!(rt; "a fault that is no refusal"),
    }
}
