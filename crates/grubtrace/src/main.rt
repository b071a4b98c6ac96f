//! The program `grubtrace`: from the text of a kernel's trace to its tasks, to a verdict on the kernel's accounting, to the reservations
//! that tasks need, and to event files.
#![tactic(auto)]

mod check_command;
mod command;
mod plain;
mod refusal;
mod serve;
mod texts;

use crate::serve::{serve, serve_no_words};
use std::alloc::Global;
use std::io::{Read, Write};
use std::process::ExitCode;
use std::rt::Files;
use std::{env, fs, io};
use text_bytes::Source;
use trace_file::Target;

/// How many bytes of a trace are read until the next word of how far it is.
const STEP: u64 = 64 * 1024 * 1024;

/// Where a trace comes from: a file, or standard input.
#[derive(Drop)]
enum Origin<F, S> {
    File(F),
    Standard(S),
}

/// A trace, and how much of it was read.
#[derive(Drop)]
struct Trace<F, S> {
    origin: Origin<F, S>,
    bytes: u64,
}

fn read<F: Read, S: Read>(trace: &mut Trace<F, S>, room: &mut [u8]) -> io::Result<usize> {
    match &mut trace.origin {
        Origin::File(file) => file.read(room),
        Origin::Standard(input) => input.read(room),
    }
}

/// Tells on a terminal how much was read: the cursor stays at the head of the line, so that what comes next takes its place.
fn show_progress<W: Write>(bytes: u64, has_ended: bool, to: &mut W) {
    let _ = if has_ended {
        to.write_all(b"\x1b[K")
    } else {
        write!(to, "{} MiB read\x1b[K\r", bytes / (1024 * 1024))
    };
}

/// Whether standard error is a terminal, by the name of what it leads to.
fn faults_go_to_terminal(files: &impl Files, alloc: Global) -> bool {
    match files.read_link(alloc, "/proc/self/fd/2") {
        Ok(path) => {
            let name = path.into_string();
            name.as_str().starts_with("/dev/pts/") || name.as_str().starts_with("/dev/tty")
        }
        Err(_) => false,
    }
}

/// Makes a file with these bytes, where there is none; where they cannot all be written, there is none after it.
fn make(files: &impl Files, path: &str, bytes: &[u8]) -> io::Result<()> {
    let mut file = fs::File::create_new(files, path)?;
    match write_whole(&mut file, bytes) {
        Ok(()) => Ok(()),
        Err(error) => {
            let _ = fs::remove_file(files, path);
            Err(error)
        }
    }
}

fn write_whole<W: Write>(file: &mut W, bytes: &[u8]) -> io::Result<()> {
    file.write_all(bytes)?;
    file.flush()
}

fn main(rt: HostRuntime) -> ExitCode {
    let alloc = rt.alloc();
    let shows = faults_go_to_terminal(&rt, alloc);
    let files = trace_file::Files {
        source: Source {
            open: |path: &str| {
                let origin = if path == "-" {
                    Origin::Standard(rt.stdin())
                } else {
                    Origin::File(fs::open(&rt, path)?)
                };
                Ok(Trace { origin, bytes: 0 })
            },
            read: |trace: &mut Trace<fs::File, io::Stdin>, room: &mut [u8]| {
                let count = read(trace, room)?;
                let before = trace.bytes;
                trace.bytes = before.saturating_add(count as u64);
                if shows && (before / STEP != trace.bytes / STEP || count == 0 && before >= STEP) {
                    show_progress(trace.bytes, count == 0, &mut rt.stderr());
                }
                Ok(count)
            },
        },
        target: Target {
            exists: |path: &str| rt.symlink_metadata(path).is_ok(),
            make: |path: &str, bytes: &[u8]| make(&rt, path, bytes),
            remove: |path: &str| {
                let _ = fs::remove_file(&rt, path);
            },
        },
    };
    let mut out = rt.stdout();
    let mut faults = rt.stderr();
    let status = match env::args(&rt).and_then(|args| Ok(args.collect::<Vec<String>>(alloc)?)) {
        Ok(words) => serve(alloc, &words, &files, &mut out, &mut faults),
        Err(error) => serve_no_words(&error, &mut faults),
    };
    ExitCode::from(status)
}
