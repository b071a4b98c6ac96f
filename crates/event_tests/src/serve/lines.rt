//! The line and the status of each fault of memory, of threads and of the writer.

use crate::expects::expect_case;
use grub_plan::TextFault;
use grub_run::{GrubFault, ProgramFault};
use grub_trace::{Kind, TraceFault};
use grub_workers::RunFault;
use std::alloc::Global;

/// Whether a fault has this status, and is printed so.
fn is_told(alloc: Global, fault: &ProgramFault, status: u8, text: &str) -> bool {
    match format!(in alloc; "{fault}") {
        Ok(printed) => fault.status() == status && printed.as_str() == text,
        Err(_) => false,
    }
}

static FAULTS_OF_THE_SYSTEM: [(ProgramFault<'static>, &str); 8] = [
    (
        ProgramFault::Run(GrubFault::Trace(TraceFault::NoMemory)),
        "37 NoMemory",
    ),
    (
        ProgramFault::Run(GrubFault::Run(RunFault::NoMemory)),
        "38 NoMemory",
    ),
    (
        ProgramFault::Run(GrubFault::Run(RunFault::Spawn)),
        "39 Spawn",
    ),
    (
        ProgramFault::Run(GrubFault::Text(TextFault::NoMemory)),
        "43 NoMemory",
    ),
    (ProgramFault::Run(GrubFault::WriteFault), "45 WriteFault"),
    (
        ProgramFault::Unreadable { path: "a file" },
        "a file: 46 ReadFault",
    ),
    (ProgramFault::NoMemory, "47 NoMemory"),
    (ProgramFault::View, "48 NoMemory"),
];

#[test]
fn faults_of_the_system(rt: HostRuntime) {
    for (fault, line) in &FAULTS_OF_THE_SYSTEM {
        expect_case(&rt, is_told(rt.alloc(), fault, 3, line), line);
    }
}

static FAULTS_OF_A_FILE: [(ProgramFault<'static>, &str); 2] = [
    (
        ProgramFault::TooLong { path: "a file" },
        "a file: 44 FileTooLong",
    ),
    (
        ProgramFault::Line {
            path: "a file",
            line: 7,
            fault: GrubFault::Trace(TraceFault::At {
                kind: Kind::OutOfRange,
                file: 2,
                line: 7,
            }),
        },
        "a file:7: 31 OutOfRange",
    ),
];

#[test]
fn faults_of_a_file(rt: HostRuntime) {
    for (fault, line) in &FAULTS_OF_A_FILE {
        expect_case(&rt, is_told(rt.alloc(), fault, 1, line), line);
    }
}

#[test]
fn an_empty_span(rt: HostRuntime) {
    let fault = ProgramFault::EmptySpan { from: 20, to: 10 };
    let text = "a picture from 20 to 10 is empty: it has to begin before it ends";
    assert!(rt; is_told(rt.alloc(), &fault, 2, text));
}
