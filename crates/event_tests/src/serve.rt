//! Reports and faults of files: statuses, printed text, and the lines of faults.

mod lines;

use crate::expects::expect_case;
use crate::files::{FIRST, FIRST_REPORT};
use crate::writer::Expecting;
use grub_run::{Attempts, STATUS_FILE, STATUS_SYSTEM, Streams, serve_files};
use std::alloc::Global;
use std::io::{ErrorKind, Read, Write};
use std::rt::Files;
use std::sync::Wait;
use std::thread::Threads;
use std::{fs, io};
use text_bytes::Source;

const ATTEMPTS: Attempts = Attempts {
    tries: 8,
    rounds: 64,
};

/// The status on the files of these names in the folder that the test runs in.
fn served<R: Files + Threads + Wait + Sync, W: Write, E: Write>(
    rt: &R,
    alloc: Global,
    paths: &[&str],
    streams: &mut Streams<W, E>,
) -> u8 {
    let source = Source {
        open: |path: &str| fs::open(rt, path),
        read: |file: &mut R::File, room: &mut [u8]| file.read(room),
    };
    serve_files(rt, alloc, ATTEMPTS, &source, paths, streams)
}

/// What the program answers: a status, what it prints, and the line of a fault.
#[derive(Clone, Copy)]
struct Answer<'a> {
    status: u8,
    out: Expecting<'a>,
    fault: &'a str,
}

/// A fault, before which nothing is printed.
fn refusal(status: u8, fault: &str) -> Answer<'_> {
    Answer {
        status,
        out: Expecting::new(b""),
        fault,
    }
}

/// Whether these files are answered so.
fn serves<R: Files + Threads + Wait + Sync>(
    rt: &R,
    alloc: Global,
    paths: &[&str],
    answer: Answer<'_>,
) -> bool {
    let mut streams = Streams {
        out: answer.out,
        faults: Expecting::new(answer.fault.as_bytes()),
    };
    served(rt, alloc, paths, &mut streams) == answer.status
        && streams.out.is_met()
        && streams.faults.is_met()
}

/// The same where there is a file of these bytes at one path meanwhile.
fn serves_with<R: Files + Threads + Wait + Sync>(
    rt: &R,
    alloc: Global,
    (path, bytes): (&str, &[u8]),
    paths: &[&str],
    answer: Answer<'_>,
) -> bool {
    let is_there = fs::write(rt, path, bytes).is_ok();
    let is_served = serves(rt, alloc, paths, answer);
    fs::remove_file(rt, path).is_ok() && is_there && is_served
}

#[test]
fn one_file(rt: HostRuntime) {
    let file = ("one.grub", FIRST.as_bytes());
    let answer = Answer {
        status: 0,
        out: Expecting::new(FIRST_REPORT.as_bytes()),
        fault: "",
    };
    assert!(rt; serves_with(&rt, rt.alloc(), file, &["one.grub"], answer));
}

/// Files that have a fault, and its line.
static FAULTS: [(&str, &str); 9] = [
    ("", "grubrun: a file.grub:1: 28 BadHeader\n"),
    (
        "grub 1\nqueue 1 0\n\n",
        "grubrun: a file.grub:3: 29 BadLine\n",
    ),
    (
        "grub 1\nqueue 01 0\n",
        "grubrun: a file.grub:2: 30 BadNumber\n",
    ),
    (
        "grub 1\nqueue 1 0\ntask A 9 8\n",
        "grubrun: a file.grub:3: 31 OutOfRange\n",
    ),
    (
        "grub 1\nqueue 1 0\ntask A 4 8\ntask A 4 8\n",
        "grubrun: a file.grub:4: 32 DuplicateTask\n",
    ),
    (
        "grub 1\nqueue 1 0\nat 0 join Z\n",
        "grubrun: a file.grub:3: 33 UnknownTask\n",
    ),
    (
        "grub 1\nqueue 1 0\nat 6 read\nat 5 read\n",
        "grubrun: a file.grub:4: 34 MomentGoesBack\n",
    ),
    ("grub 1\n", "grubrun: a file.grub:2: 35 MissingQueue\n"),
    ("grub 1\nqueue 1 0", "grubrun: a file.grub:2: 36 CutShort\n"),
];

/// Whether a file of this text is answered by this line of a fault.
fn tells_fault<R: Files + Threads + Wait + Sync>(
    rt: &R,
    alloc: Global,
    text: &str,
    fault: &str,
) -> bool {
    let file = ("a file.grub", text.as_bytes());
    serves_with(
        rt,
        alloc,
        file,
        &["a file.grub"],
        refusal(STATUS_FILE, fault),
    )
}

#[test]
fn faults_of_files(rt: HostRuntime) {
    for (text, fault) in &FAULTS {
        expect_case(&rt, tells_fault(&rt, rt.alloc(), text, fault), fault);
    }
}

/// Whether 64 files and a last one are answered by this status and line of a fault.
fn serves_many<R: Files + Threads + Wait + Sync>(
    rt: &R,
    alloc: Global,
    last: &str,
    status: u8,
    fault: &str,
) -> bool {
    let file = ("empty.grub", b"grub 1\nqueue 1 0\n".as_slice());
    let mut words = ["empty.grub"; 65];
    words[64] = last;
    serves_with(rt, alloc, file, &words, refusal(status, fault))
}

#[test]
fn many_files(rt: HostRuntime) {
    let many = "grubrun: ./empty.grub:1: 31 OutOfRange\n";
    let gone = "grubrun: not there: 46 ReadFault\n";
    assert!(rt; serves_many(&rt, rt.alloc(), "./empty.grub", STATUS_FILE, many));
    assert!(rt; serves_many(&rt, rt.alloc(), "not there", STATUS_SYSTEM, gone));
}

/// Whether files, of which long.grub has so many bytes, are answered by this status and line of a fault.
fn serves_long<R: Files + Threads + Wait + Sync>(
    rt: &R,
    alloc: Global,
    len: usize,
    paths: &[&str],
    status: u8,
    fault: &str,
) -> bool {
    match Vec::from_elem(alloc, b'7', len) {
        Ok(text) => serves_with(
            rt,
            alloc,
            ("long.grub", &text),
            paths,
            refusal(status, fault),
        ),
        Err(_) => false,
    }
}

#[test]
fn long_files(rt: HostRuntime) {
    let alloc = rt.alloc();
    let words = ["long.grub"; 65];
    let cut = "grubrun: long.grub:1: 36 CutShort\n";
    let long = "grubrun: long.grub: 44 FileTooLong\n";
    assert!(rt; serves_long(&rt, alloc, 16777216, &["long.grub"], STATUS_FILE, cut));
    assert!(rt; serves_long(&rt, alloc, 16777217, &["long.grub"], STATUS_FILE, long));
    // Too many files are too long before they are too many.
    assert!(rt; serves_long(&rt, alloc, 16777217, &words, STATUS_FILE, long));
}

fn open_any(_path: &str) -> io::Result<usize> {
    Ok(0)
}

/// A read that always fails.
fn no_read(_file: &mut usize, _room: &mut [u8]) -> io::Result<usize> {
    Err(io::Error::from(ErrorKind::Other))
}

/// Whether a file that opens, and cannot be read, is answered as unreadable.
fn broken_read_is_told<R: Threads + Wait + Sync>(rt: &R, alloc: Global) -> bool {
    let source = Source {
        open: open_any,
        read: no_read,
    };
    let mut streams = Streams {
        out: Expecting::new(b""),
        faults: Expecting::new(b"grubrun: x: 46 ReadFault\n"),
    };
    serve_files(rt, alloc, ATTEMPTS, &source, &["x"], &mut streams) == STATUS_SYSTEM
        && streams.out.is_met()
        && streams.faults.is_met()
}

/// Whether a folder, which opens too, is answered as unreadable.
fn folder_is_told<R: Files + Threads + Wait + Sync>(rt: &R, alloc: Global) -> bool {
    let line = "grubrun: folder: 46 ReadFault\n";
    let is_there = fs::create_dir(rt, "folder").is_ok();
    let is_told = serves(rt, alloc, &["folder"], refusal(STATUS_SYSTEM, line));
    fs::remove_dir(rt, "folder").is_ok() && is_there && is_told
}

#[test]
fn broken_reads(rt: HostRuntime) {
    assert!(rt; broken_read_is_told(&rt, rt.alloc()));
    assert!(rt; folder_is_told(&rt, rt.alloc()));
}

/// Whether three files, of which short.grub is read whole and long.grub is too long, are answered so.
fn serves_unread<R: Files + Threads + Wait + Sync>(
    rt: &R,
    alloc: Global,
    paths: &[&str],
    status: u8,
    fault: &str,
) -> bool {
    let is_there = fs::write(rt, "short.grub", FIRST.as_bytes()).is_ok();
    let is_told = serves_long(rt, alloc, 16777217, paths, status, fault);
    fs::remove_file(rt, "short.grub").is_ok() && is_there && is_told
}

/// A folder of two files, the second of which cannot be opened: the first decides where it is too long.
#[test]
fn the_first_unread_file_is_told(rt: HostRuntime) {
    let alloc = rt.alloc();
    let long = "grubrun: long.grub: 44 FileTooLong\n";
    let gone = "grubrun: not there: 46 ReadFault\n";
    let long_first = ["short.grub", "long.grub", "not there"];
    let gone_first = ["short.grub", "not there", "long.grub"];
    assert!(rt; serves_unread(&rt, alloc, &long_first, STATUS_FILE, long));
    assert!(rt; serves_unread(&rt, alloc, &gone_first, STATUS_SYSTEM, gone));
}

/// A report that cannot be written is told as such.
#[test]
fn closed_output(rt: HostRuntime) {
    let file = ("closed.grub", FIRST.as_bytes());
    let mut answer = refusal(STATUS_SYSTEM, "grubrun: 45 WriteFault\n");
    answer.out.calls = 0;
    assert!(rt; serves_with(&rt, rt.alloc(), file, &["closed.grub"], answer));
}

/// The faults of refused memory. A refused start of a thread may be answered as such.
const REFUSALS: [&[u8]; 5] = [
    b"grubrun: 37 NoMemory\n",
    b"grubrun: 38 NoMemory\n",
    b"grubrun: 39 Spawn\n",
    b"grubrun: 43 NoMemory\n",
    b"grubrun: 47 NoMemory\n",
];

/// Whether the program answers the first file as with ample memory, or with status 3 and the line of a refusal. True too
/// where the room for its faults is refused.
fn reports_or_refuses<R: Files + Threads + Wait + Sync>(rt: &R, alloc: Global, path: &str) -> bool {
    let Ok(faults) = Vec::with_capacity(alloc, 1000) else {
        return true;
    };
    let mut streams = Streams {
        out: Expecting::new(FIRST_REPORT.as_bytes()),
        faults,
    };
    let status = served(rt, alloc, &[path], &mut streams);
    let Streams { out, faults } = streams;
    match status {
        0 => out.is_met() && faults.is_empty(),
        3 => out.is_untouched(FIRST_REPORT) && REFUSALS.contains(&faults.as_slice()),
        _ => false,
    }
}

/// Passes with ample memory, and with any one of its growths refused: `tests/refused-growths.py` runs it so once for
/// each.
#[test]
fn refused_growths(rt: HostRuntime) {
    let Ok(()) = fs::write(&rt, "refused.grub", FIRST.as_bytes()) else {
        return;
    };
    let is_right = reports_or_refuses(&rt, rt.alloc(), "refused.grub");
    let _ = fs::remove_file(&rt, "refused.grub");
    assert!(rt; is_right);
}
