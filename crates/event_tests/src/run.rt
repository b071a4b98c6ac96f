//! The run of files from their bytes: its output, writers that fail, and refused growths.

ghost use Rattle.std.specs.Prelude.{◌≤◌};

mod growths;
mod writers;

use crate::documentation;
use crate::expects::{expect_at, expect_case};
use crate::files::{
    FAR_TIMER, FAR_TIMER_REPORT, FIRST, FIRST_REPORT, LEAVES, LEAVES_REPORT, NO_EVENTS,
    NO_EVENTS_REPORT, RETUNES, RETUNES_REPORT, files_of,
};
use crate::writer::Expecting;
use grub_run::{Attempts, GrubFault, run_texts, run_texts_by_threads};
use grub_trace::{Kind, TraceFault};
use std::alloc::{AllocError, Global};
use std::process::Abort;
use std::sync::Wait;
use std::thread::Threads;

/// Whether a run of these files ends so, when the writer has taken all that it expects, in both forms of the call.
fn ends<R: Threads + Wait + Sync>(
    rt: &R,
    alloc: Global,
    texts: &[&str],
    attempts: Attempts,
    mut out: Expecting<'_>,
    end: Result<(), GrubFault>,
) -> bool
    requires { 1 ≤ attempts.rounds }
{
    let Attempts { tries, rounds } = attempts;
    let mut plain = out;
    let Some(files) = files_of(alloc, texts) else {
        return false;
    };
    run_texts(rt, alloc, &files, tries, rounds, &mut plain) == end
        && plain.is_met()
        && run_texts_by_threads(rt, alloc, files, tries, rounds, &mut out) == end
        && out.is_met()
}

/// Whether a run of these files writes this text.
fn prints<R: Threads + Wait + Sync>(
    rt: &R,
    alloc: Global,
    files: &[&str],
    attempts: Attempts,
    text: &str,
) -> bool
    requires { 1 ≤ attempts.rounds }
{
    let out = Expecting::new(text.as_bytes());
    ends(rt, alloc, files, attempts, out, Ok(()))
}

/// Attempts that are enough where no other file has the task.
const ENOUGH: Attempts = Attempts {
    tries: 8,
    rounds: 64,
};

/// Event files, each with its tries, its rounds and its report.
static FILES: [(&str, u8, u16, &str); 6] = [
    (FIRST, 8, 64, FIRST_REPORT),
    (LEAVES, 1, 1, LEAVES_REPORT),
    (FAR_TIMER, 8, 64, FAR_TIMER_REPORT),
    (RETUNES, 8, 64, RETUNES_REPORT),
    (NO_EVENTS, 0, 1, NO_EVENTS_REPORT),
    (documentation::FILE, 4, 100, documentation::REPORT),
];

/// Whether a file of this table has its report.
fn has_report<R: Threads + Wait + Sync>(
    rt: &R,
    alloc: Global,
    &(file, tries, rounds, text): &(&str, u8, u16, &str),
) -> bool {
    rounds >= 1 && prints(rt, alloc, &[file], Attempts { tries, rounds }, text)
}

#[test]
fn one_file(rt: HostRuntime) {
    for file in &FILES {
        expect_case(&rt, has_report(&rt, rt.alloc(), file), file.0);
    }
}

/// Adds the first lines of a text.
fn push_first_lines(to: &mut String, text: &str, lines: usize) -> Result<(), AllocError> {
    for line in text.split_inclusive('\n').take(lines) {
        to.push_str(line)?;
    }
    Ok(())
}

/// The documentation's file, cut after each of its lines but the first: how many lines of its report come before the
/// closing reading, and this.
static CUTS: [(usize, usize, &str); 11] = [
    (2, 1, "close running=0 this=0\n"),
    (3, 1, "close running=0 this=0\n"),
    (4, 1, "close running=0 this=0\n"),
    (5, 2, "close running=524288 this=524288\n"),
    (6, 3, "close running=1048576 this=1048576\n"),
    (7, 4, "close running=1048576 this=1048576\n"),
    (8, 5, "close running=1048576 this=1048576\n"),
    (9, 6, "close running=1048576 this=1048576\n"),
    (10, 8, "close running=524288 this=1048576\n"),
    (11, 9, "close running=1048576 this=1048576\n"),
    (12, 10, "close running=1048576 this=1048576\n"),
];

/// Whether so many lines of the documentation's file have so many lines of its report, and this closing reading.
fn prints_cut<R: Threads + Wait + Sync>(
    rt: &R,
    alloc: Global,
    lines: usize,
    reported: usize,
    close: &str,
) -> bool {
    let mut file = String::new(alloc);
    let mut text = String::new(alloc);
    push_first_lines(&mut file, documentation::FILE, lines).is_ok()
        && push_first_lines(&mut text, documentation::REPORT, reported).is_ok()
        && text.push_str(close).is_ok()
        && prints(rt, alloc, &[&file], ENOUGH, &text)
}

/// A file that is cut between two lines has the report of its whole lines.
#[test]
fn cuts_between_lines(rt: HostRuntime) {
    for (lines, reported, close) in &CUTS {
        let is_right = prints_cut(&rt, rt.alloc(), *lines, *reported, close);
        expect_at(&rt, is_right, *lines);
    }
}

/// Without a try every join is given up, in each of its rounds.
#[test]
fn no_tries(rt: HostRuntime) {
    let text = "\
runqueue 0
at 0 join A: lost
at 0 block A: not-on
at 0 read: running=0 this=0
at 3 wake A: not-on
at 3 read: running=0 this=0
close running=0 this=0
";
    let once = Attempts {
        tries: 0,
        rounds: 1,
    };
    let thrice = Attempts {
        tries: 0,
        rounds: 3,
    };
    assert!(rt; prints(&rt, rt.alloc(), &[FIRST], once, text));
    assert!(rt; prints(&rt, rt.alloc(), &[FIRST], thrice, text));
}

/// Files that share no task have the reports that each has alone, whatever the schedule.
#[test]
fn several_files(rt: HostRuntime) {
    let text = "\
runqueue 0
at 0 join T1: joined q=4 d=8
at 0 join T2: joined q=4 d=8
at 0 run T1 2: charged dq=2 k=0 q=2 d=8
at 2 block T1: waiting ticket=1 z=4
at 2 run T2 2: charged dq=2 k=0 q=2 d=8
at 4 timer T1 1: retired
at 4 run T2 4: charged dq=2 k=1 q=4 d=16
at 8 wake T1: woken q=4 d=16
at 8 read: running=1048576 this=1048576
close running=1048576 this=1048576
runqueue 1
at 0 join A: joined q=4 d=8
at 0 block A: asleep
at 0 read: running=0 this=524288
at 3 wake A: woken q=4 d=11
at 3 read: running=524288 this=524288
close running=524288 this=524288
";
    assert!(rt; prints(&rt, rt.alloc(), &[documentation::FILE, FIRST], ENOUGH, text));
}

/// So many readings that several threads make their lines.
const LONG: usize = 33_000;

/// So few readings that no thread is started for their lines.
const SHORT: usize = 1023;

/// A text so many times.
fn repeated(rt: &impl Abort, alloc: Global, text: &str, times: usize) -> String {
    match text.repeat(alloc, times) {
        Ok(all) => all,
        Err(_) => panic!(rt; "no memory"),
    }
}

/// These texts in one.
fn joined(rt: &impl Abort, alloc: Global, texts: &[&str]) -> String {
    match texts.concat(alloc) {
        Ok(all) => all,
        Err(_) => panic!(rt; "no memory"),
    }
}

/// A file of so many readings.
fn readings(rt: &impl Abort, alloc: Global, count: usize) -> String {
    let lines = repeated(rt, alloc, "at 0 read\n", count);
    joined(rt, alloc, &["grub 1\nqueue 1 0\n", &lines])
}

/// The report of a long file, a short and a long one.
fn report_of_readings(rt: &impl Abort, alloc: Global) -> String {
    let close = "close running=0 this=0\n";
    let long = repeated(rt, alloc, "at 0 read: running=0 this=0\n", LONG);
    let short = repeated(rt, alloc, "at 0 read: running=0 this=0\n", SHORT);
    let (one, two, three) = ("runqueue 0\n", "runqueue 1\n", "runqueue 2\n");
    joined(
        rt,
        alloc,
        &[one, &long, close, two, &short, close, three, &long, close],
    )
}

/// Reports that are so long that several threads make their lines, with one between them that none is started for.
#[test]
fn long_reports(rt: HostRuntime) {
    let alloc = rt.alloc();
    let long = readings(&rt, alloc, LONG);
    let short = readings(&rt, alloc, SHORT);
    let text = report_of_readings(&rt, alloc);
    assert!(rt; prints(&rt, alloc, &[&long, &short, &long], ENOUGH, &text));
}

/// Whether a run of these files ends in this fault of a first line, and writes nothing.
fn ends_before<R: Threads + Wait + Sync>(
    rt: &R,
    alloc: Global,
    texts: &[&str],
    kind: Kind,
    file: usize,
) -> bool {
    let fault = TraceFault::At {
        kind,
        file,
        line: 1,
    };
    let end = Err(GrubFault::Trace(fault));
    ends(rt, alloc, texts, ENOUGH, Expecting::new(b""), end)
}

#[test]
fn faults_before_anything_is_written(rt: HostRuntime) {
    let texts = ["grub 1\nqueue 1 0\n"; 65];
    assert!(rt; ends_before(&rt, rt.alloc(), &[], Kind::MissingQueue, 0));
    assert!(rt; ends_before(&rt, rt.alloc(), &texts, Kind::OutOfRange, 64));
}
