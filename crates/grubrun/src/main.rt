//! The program `grubrun`: plays event files by the GRUB rule, and prints the answers to their lines, or a view of them on one time line.
#![tactic(auto)]

mod command;
mod serve;
mod texts;
mod view;
mod view_word;

use crate::serve::{serve, serve_no_words};
use grub_run::Streams;
use std::io::Read;
use std::process::ExitCode;
use std::{env, fs};
use text_bytes::Source;

fn main(rt: HostRuntime) -> ExitCode {
    let alloc = rt.alloc();
    let source = Source {
        open: |path: &str| fs::open(&rt, path),
        read: |file: &mut fs::File, room: &mut [u8]| file.read(room),
    };
    let mut streams = Streams {
        out: rt.stdout(),
        faults: rt.stderr(),
    };
    let status = match env::args(&rt).and_then(|args| Ok(args.collect::<Vec<String>>(alloc)?)) {
        Ok(words) => serve(&rt, alloc, &words, &source, &mut streams),
        Err(error) => serve_no_words(&error, &mut streams.faults),
    };
    ExitCode::from(status)
}
