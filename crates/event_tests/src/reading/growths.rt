//! What is answered where a growth is refused. Each test passes with ample memory, and with any one of its growths
//! refused: `tests/refused-growths.py` runs it so once for each. What was refused once is asked for a second time.

use super::texts::{EXAMPLE_LINES, are_of, example_entries, is_of, is_text};
use super::*;
use grub_book::Reading;
use std::test::Fail;

/// Two files that share the example's tasks; the second is of this version.
fn two_files(alloc: Global, second: &[u8]) -> Result<Vec<Vec<u8>>, AllocError> {
    let texts = [documentation::FILE.as_bytes(), second];
    match files_of(alloc, &texts) {
        Err(AllocError) => files_of(alloc, &texts),
        files => files,
    }
}

/// What is read, which is asked for a second time where memory was refused once.
fn read_after_all(alloc: Global, files: &[Vec<u8>]) -> Result<Plan, TraceFault> {
    match read_files(alloc, files) {
        Err(TraceFault::NoMemory) => read_files(alloc, files),
        answer => answer,
    }
}

/// The plan of the example and of a second file of this text.
fn plan_after_all(alloc: Global, second: &[u8]) -> Result<Plan, TraceFault> {
    read_after_all(alloc, &two_files(alloc, second)?)
}

const EMPTY_SECOND: &[u8] = b"grub 2\nqueue 1 0\n";

const CLOSING: Reading = Reading {
    running: 1048576,
    this: 1048576,
};

/// Whether this is the plan of the example and of a second file of one line.
fn is_of_both(plan: &Plan) -> bool {
    plan.files() == 2
        && plan.setup().has_task(1)
        && !plan.setup().has_task(2)
        && plan.name(1) == "T2"
        && plan.script(0).len() == 8
        && plan.script(1).len() == 1
}

#[test]
fn refused_growths_of_a_reading(rt: HostRuntime) -> Result<(), TraceFault> {
    let second = b"grub 2\nqueue 1 0\nat 0 retune T1 1 2\n";
    let plan = plan_after_all(rt.alloc(), second)?;
    assert!(rt; is_of_both(&plan));
    Ok(())
}

#[test]
fn refused_growths_before_a_fault(rt: HostRuntime) {
    let second = b"grub 1\nqueue 1 0\nat 0 retune T1 1 2\n";
    let fault = TraceFault::At {
        kind: Kind::BadLine,
        file: 1,
        line: 3,
    };
    assert!(rt; plan_after_all(rt.alloc(), second).err() == Some(fault));
}

/// Whether an entry's line is this text; it is made a second time where memory was refused once.
fn has_line_after_all(alloc: Global, plan: &Plan, entry: &Entry, line: &[u8]) -> bool {
    if !is_of(plan, entry.ask) {
        return false;
    }
    let text = match line_of(alloc, plan, entry) {
        Err(TextFault::NoMemory) => line_of(alloc, plan, entry),
        text => text,
    };
    is_text(text, line)
}

#[test]
fn refused_growths_of_lines(rt: HostRuntime) -> Result<(), TraceFault> {
    let alloc = rt.alloc();
    let plan = plan_after_all(alloc, EMPTY_SECOND)?;
    for (entry, line) in example_entries().iter().zip(&EXAMPLE_LINES) {
        assert!(rt; has_line_after_all(alloc, &plan, entry, line), "{line:?}");
    }
    Ok(())
}

/// The report of the example; its entries are taken a second time where memory was refused once.
fn example_report(alloc: Global) -> Result<Report, AllocError> {
    let entries = match Vec::from_slice(alloc, &example_entries()) {
        Err(AllocError) => Vec::from_slice(alloc, &example_entries())?,
        Ok(entries) => entries,
    };
    Ok(Report { entries })
}

/// Whether a report prints as this text; that is made a second time where memory was refused once.
fn has_text_after_all(alloc: Global, plan: &Plan, report: &Report, wanted: &[u8]) -> bool {
    if !are_of(plan, &report.entries) {
        return false;
    }
    let text = match report_of(alloc, plan, 0, report, CLOSING) {
        Err(TextFault::NoMemory) => report_of(alloc, plan, 0, report, CLOSING),
        text => text,
    };
    is_text(text, wanted)
}

#[test]
fn refused_growths_of_a_report(rt: HostRuntime) -> Result<(), TraceFault> {
    let alloc = rt.alloc();
    let plan = plan_after_all(alloc, EMPTY_SECOND)?;
    let report = example_report(alloc)?;
    assert!(rt; has_text_after_all(alloc, &plan, &report, documentation::REPORT.as_bytes()));
    Ok(())
}

/// The most pieces of memory that are held back.
const PIECES: usize = 131072;

/// All memory that is left, so that every growth is refused until it is dropped; none of it is written. An allocator may
/// keep a piece that was given back for the next of its very size, so each small size is asked for. None where the
/// allocator gives memory without end, as that of `rt try` does.
fn all_memory(alloc: Global) -> Result<Option<Vec<Vec<u8>>>, AllocError> {
    let mut pieces = Vec::with_capacity(alloc, PIECES)?;
    let mut size = usize::MAX / 65536;
    for _halving in 0..37 {
        if !hold(alloc, &mut pieces, size) {
            return Ok(None);
        }
        size /= 2;
    }
    for smaller in 0..2048 {
        if !hold(alloc, &mut pieces, 2048 - smaller) {
            return Ok(None);
        }
    }
    Ok(Some(pieces))
}

/// Holds pieces of this size until no more is given. Whether they could be held.
fn hold(alloc: Global, pieces: &mut Vec<Vec<u8>>, size: usize) -> bool {
    for _piece in 0..PIECES {
        let Ok(piece) = Vec::with_capacity(alloc, size) else {
            return true;
        };
        if pieces.push(piece).is_err() {
            return false;
        }
    }
    true
}

/// What is answered where nothing is left, to files and to a wrong one, to an entry and to a report.
fn answers_without_memory(
    alloc: Global,
    files: &[Vec<u8>],
    wrong: &[Vec<u8>],
    plan: &Plan,
) -> Result<bool, AllocError> {
    let report = Report {
        entries: Vec::new(alloc),
    };
    let [.., entry] = example_entries();
    if !is_of(plan, entry.ask) {
        return Ok(false);
    }
    let Some(held_back) = all_memory(alloc)? else {
        return Ok(true);
    };
    let read = read_files(alloc, files).err();
    let wrong = read_files(alloc, wrong).err();
    let line = line_of(alloc, plan, &entry).err();
    let text = report_of(alloc, plan, 0, &report, CLOSING).err();
    drop(held_back);
    Ok(are_told(read, wrong) && are_refusals(line, text))
}

/// Whether these are a want of memory, and the fault of a file's second line.
fn are_told(read: Option<TraceFault>, wrong: Option<TraceFault>) -> bool {
    let second_line = TraceFault::At {
        kind: Kind::OutOfRange,
        file: 0,
        line: 2,
    };
    read == Some(TraceFault::NoMemory) && wrong == Some(second_line)
}

/// Whether both texts want memory.
fn are_refusals(line: Option<TextFault>, text: Option<TextFault>) -> bool {
    line == Some(TextFault::NoMemory) && text == Some(TextFault::NoMemory)
}

/// 37 and 43 are answered where nothing is left, and the faults of the first two lines of the first file all the same.
#[test]
fn no_memory_is_left(rt: HostRuntime) -> Result<(), Fail> {
    let alloc = rt.alloc();
    let files = files_of(alloc, &[documentation::FILE.as_bytes()])?;
    let wrong = files_of(alloc, &[b"grub 1\nqueue 1 2\n"])?;
    let plan = read_files(alloc, &files)?;
    assert!(rt; answers_without_memory(alloc, &files, &wrong, &plan)?);
    Ok(())
}
