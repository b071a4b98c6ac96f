//! What a run answers where a growth is refused.

use crate::documentation;
use crate::files::{FIRST, FIRST_REPORT, files_after_all};
use crate::writer::Expecting;
use grub_plan::TextFault;
use grub_run::{GrubFault, run_texts, run_texts_by_threads};
use grub_trace::TraceFault;
use grub_workers::RunFault;
use std::alloc::Global;
use std::process::Abort;
use std::sync::Wait;
use std::thread::Threads;

/// Whether a run of this file writes this text, or answers a refusal and writes nothing.
fn prints_or_refuses<R: Abort + Threads + Wait + Sync>(
    rt: &R,
    alloc: Global,
    file: &str,
    text: &str,
) -> bool {
    let files = files_after_all(rt, alloc, &[file]);
    let mut out = Expecting::new(text.as_bytes());
    let end = run_texts(rt, alloc, &files, 8, 64, &mut out);
    is_text_or_refusal(end, &out, text)
}

/// The same of a run that makes its lines by threads.
fn prints_or_refuses_by_threads<R: Abort + Threads + Wait + Sync>(
    rt: &R,
    alloc: Global,
    file: &str,
    text: &str,
) -> bool {
    let files = files_after_all(rt, alloc, &[file]);
    let mut out = Expecting::new(text.as_bytes());
    let end = run_texts_by_threads(rt, alloc, files, 8, 64, &mut out);
    is_text_or_refusal(end, &out, text)
}

/// Whether this text was written, or nothing for want of memory.
fn is_text_or_refusal(end: Result<(), GrubFault>, out: &Expecting<'_>, text: &str) -> bool {
    match end {
        Ok(()) => out.is_met(),
        Err(fault) => is_refusal(fault) && out.is_untouched(text),
    }
}

/// Whether the fault is a want of memory. A refused start of a thread may be answered as such.
fn is_refusal(fault: GrubFault) -> bool {
    match fault {
        GrubFault::Trace(fault) => fault == TraceFault::NoMemory,
        GrubFault::Run(RunFault::NoMemory | RunFault::Spawn) => true,
        GrubFault::Text(TextFault::NoMemory) => true,
        GrubFault::WriteFault => false,
    }
}

// The next three pass with ample memory, and with any one of their growths refused: `tests/refused-growths.py` runs them
// so once for each.

#[test]
fn refused_growths_of_the_first_file(rt: HostRuntime) {
    assert!(rt; prints_or_refuses(&rt, rt.alloc(), FIRST, FIRST_REPORT));
}

#[test]
fn refused_growths_of_the_documentation(rt: HostRuntime) {
    assert!(rt; prints_or_refuses(&rt, rt.alloc(), documentation::FILE, documentation::REPORT));
}

#[test]
fn refused_growths_by_threads(rt: HostRuntime) {
    assert!(rt; prints_or_refuses_by_threads(&rt, rt.alloc(), FIRST, FIRST_REPORT));
}
