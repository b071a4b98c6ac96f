//! Views from the bytes of files: with refused growths, and with a writer that fails.

use crate::expects::expect_at;
use crate::files::{files_after_all, files_of};
use crate::moving;
use crate::writer::Expecting;
use grub_run::{FileView, ShowFault, write_view};
use grub_trace::TraceFault;
use std::alloc::{AllocError, Global};
use std::fmt::Write;
use std::process::Abort;
use std::thread::Threads;

/// Room for a view, made a second time where it was refused.
fn room_after_all(rt: &impl Abort, alloc: Global) -> Vec<u8> {
    if let Ok(room) = Vec::with_capacity(alloc, 20000) {
        return room;
    }
    match Vec::with_capacity(alloc, 20000) {
        Ok(room) => room,
        Err(_) => panic!(rt; "refused twice"),
    }
}

/// What a view of the two files wrote, or the refusal that stopped it, which wrote nothing. The test's own input is made
/// a second time where a growth of it was refused.
fn shown<R: Abort + Threads + Sync>(rt: &R, alloc: Global, view: FileView) -> Option<Vec<u8>> {
    let files = files_after_all(rt, alloc, &[moving::FROM, moving::TO]);
    let mut out = room_after_all(rt, alloc);
    match write_view(rt, alloc, files, view, &mut out) {
        Ok(()) => Some(out),
        Err(fault) => {
            assert!(rt; is_refusal(fault));
            assert!(rt; out.is_empty());
            None
        }
    }
}

/// Whether a view of the two files is this text, or is refused.
fn shows_or_refuses<R: Abort + Threads + Sync>(
    rt: &R,
    alloc: Global,
    view: FileView,
    text: &str,
) -> bool {
    match shown(rt, alloc, view) {
        Some(out) => out.as_slice() == text.as_bytes(),
        None => true,
    }
}

/// Whether the fault is a want of memory.
fn is_refusal(fault: ShowFault) -> bool {
    match fault {
        ShowFault::Trace(fault) => fault == TraceFault::NoMemory,
        ShowFault::NoMemory => true,
        ShowFault::EmptySpan { .. } | ShowFault::WriteFault => false,
    }
}

// The next four pass with ample memory, and with any one of their growths refused: `tests/refused-growths.py` runs them
// so once for each.

#[test]
fn refused_growths_of_the_lines(rt: HostRuntime) {
    assert!(rt; shows_or_refuses(&rt, rt.alloc(), FileView::Timeline, moving::LINES));
}

#[test]
fn refused_growths_of_the_steps(rt: HostRuntime) {
    assert!(rt; shows_or_refuses(&rt, rt.alloc(), FileView::Steps, moving::STEPS));
}

#[test]
fn refused_growths_of_the_summary(rt: HostRuntime) {
    assert!(rt; shows_or_refuses(&rt, rt.alloc(), FileView::Summary, moving::SUMMARY));
}

#[test]
fn refused_growths_of_the_picture(rt: HostRuntime) {
    let view = FileView::Picture {
        from: None,
        to: Some(20),
    };
    if let Some(text) = shown(&rt, rt.alloc(), view) {
        assert!(rt; text.starts_with(b"<svg "));
        assert!(rt; text.ends_with(b"</svg>\n"));
    }
}

/// Whether a writer of so much room gets the beginning of this text by a view of these files, and fails if that is not
/// all of it.
fn gets<R: Threads + Sync>(
    rt: &R,
    alloc: Global,
    texts: &[&str],
    view: FileView,
    room: usize,
    text: &str,
) -> bool {
    let Some(files) = files_of(alloc, texts) else {
        return false;
    };
    let text = text.as_bytes();
    let mut out = Expecting::new(&text[..room.min(text.len())]);
    out.room = room;
    let wanted = if room < text.len() {
        Err(ShowFault::WriteFault)
    } else {
        Ok(())
    };
    write_view(rt, alloc, files, view, &mut out) == wanted && out.is_met()
}

/// Views of the two files, their texts, and the room of a writer that fails.
static CUT_VIEWS: [(FileView, &str, usize); 12] = [
    (FileView::Timeline, moving::LINES, 0),
    (FileView::Timeline, moving::LINES, 1),
    (FileView::Timeline, moving::LINES, 100),
    (FileView::Timeline, moving::LINES, moving::LINES.len() - 1),
    (FileView::Steps, moving::STEPS, 0),
    (FileView::Steps, moving::STEPS, 1),
    (FileView::Steps, moving::STEPS, 100),
    (FileView::Steps, moving::STEPS, moving::STEPS.len() - 1),
    (FileView::Summary, moving::SUMMARY, 0),
    (FileView::Summary, moving::SUMMARY, 1),
    (FileView::Summary, moving::SUMMARY, 100),
    (
        FileView::Summary,
        moving::SUMMARY,
        moving::SUMMARY.len() - 1,
    ),
];

/// A writer that fails has taken a beginning of the view.
#[test]
fn a_writer_that_fails(rt: HostRuntime) {
    let files = [moving::FROM, moving::TO];
    for (view, text, room) in &CUT_VIEWS {
        expect_at(
            &rt,
            gets(&rt, rt.alloc(), &files, *view, *room, text),
            *room,
        );
    }
}

/// How readings are written: what comes first, what stands before and after the moment of each, and what comes last.
struct Form {
    head: &'static str,
    before: &'static str,
    after: &'static str,
    end: &'static str,
}

const FILE: Form = Form {
    head: "grub 1\nqueue 1048576 0\n",
    before: "at ",
    after: " read\n",
    end: "",
};

const READ_LINES: Form = Form {
    head: "",
    before: "at ",
    after: " on 0 read: running=0 this=0\n",
    end: "close 0 running=0 this=0\n",
};

const READ_STEPS: Form = Form {
    head: "moment\trunqueue\task\ttask\targ\tanswer\tdq\tk\tq\td\tz\trunning\tthis\n",
    before: "",
    after: "\t0\tread\t\t\tread\t\t\t\t\t\t0\t0\n",
    end: "",
};

/// Adds so many readings.
fn push_readings(text: &mut String, form: &Form, count: u32) -> Result<(), AllocError> {
    text.push_str(form.head)?;
    for m in 0..count {
        text.push_str(form.before)?;
        write!(text, "{m}")?;
        text.push_str(form.after)?;
    }
    text.push_str(form.end)
}

/// So many readings.
fn readings(rt: &impl Abort, alloc: Global, form: &Form, count: u32) -> String {
    let mut text = String::new(alloc);
    assert!(rt; push_readings(&mut text, form, count).is_ok());
    text
}

/// Expects of a view of many readings what `a_view_of_many_entries` tells.
fn expect_many<R: Abort + Threads + Sync>(rt: &R, alloc: Global, view: FileView, form: &Form) {
    let file = readings(rt, alloc, &FILE, 70_000);
    let text = readings(rt, alloc, form, 70_000);
    let almost_all = text.len().saturating_sub(1);
    for room in &[usize::MAX, 500_000, 1_201_232, 2_000_000, almost_all] {
        expect_at(rt, gets(rt, alloc, &[&file], view, *room, &text), *room);
    }
}

/// More entries than are played at a time, to a writer that takes all of them, and to writers that fail among the first,
/// between the first and the next, and after those.
#[test]
fn a_view_of_many_entries(rt: HostRuntime) {
    expect_many(&rt, rt.alloc(), FileView::Timeline, &READ_LINES);
    expect_many(&rt, rt.alloc(), FileView::Steps, &READ_STEPS);
}

/// Whether both views of so many readings are their texts.
fn shows_readings<R: Abort + Threads + Sync>(rt: &R, alloc: Global, count: u32) -> bool {
    let file = readings(rt, alloc, &FILE, count);
    let lines = readings(rt, alloc, &READ_LINES, count);
    let steps = readings(rt, alloc, &READ_STEPS, count);
    gets(rt, alloc, &[&file], FileView::Timeline, usize::MAX, &lines)
        && gets(rt, alloc, &[&file], FileView::Steps, usize::MAX, &steps)
}

/// As many entries as are worth a thread, as many as are played at a time, and one fewer and one more.
#[test]
fn a_view_of_a_chunk_of_entries(rt: HostRuntime) {
    for count in &[1023u32, 1024, 32_765, 32_766, 32_767] {
        expect_at(
            &rt,
            shows_readings(&rt, rt.alloc(), *count),
            *count as usize,
        );
    }
}
