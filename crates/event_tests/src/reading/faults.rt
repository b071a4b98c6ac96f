//! Faults of files: which, where, and in which order.

use super::*;
use std::fmt::Display;
use std::process::Abort;

fn at(kind: Kind, file: usize, line: usize) -> Option<TraceFault> {
    Some(TraceFault::At { kind, file, line })
}

/// Whether files of these bytes have this fault, or none.
fn have_fault(alloc: Global, texts: &[&[u8]], fault: Option<TraceFault>) -> bool {
    plan_of(alloc, texts).err() == fault
}

/// Expects faults of files of one text each, with their lines.
fn expect(rt: &impl Abort, alloc: Global, cases: &[(&[u8], Kind, usize)]) {
    for (text, kind, line) in cases {
        assert!(rt;
            have_fault(alloc, &[*text], at(*kind, 0, *line)),
            "{text:?}"
        );
    }
}

/// These bytes, one after another.
fn joined(alloc: Global, parts: &[&[u8]]) -> Result<Vec<u8>, AllocError> {
    let mut text = Vec::new(alloc);
    for part in parts {
        text.extend_from_slice(part)?;
    }
    Ok(text)
}

/// Whether a third line, below a header and a runqueue's line, has this fault.
fn has_third(alloc: Global, header: &[u8], line: &[u8], kind: Kind) -> bool {
    match joined(alloc, &[header, b"queue 1048576 0\n", line, b"\n"]) {
        Ok(text) => have_fault(alloc, &[&text], at(kind, 0, 3)),
        Err(AllocError) => false,
    }
}

/// Expects faults of third lines.
fn expect_third(rt: &impl Abort, alloc: Global, header: &[u8], cases: &[(&[u8], Kind)]) {
    for (line, kind) in cases {
        assert!(rt; has_third(alloc, header, *line, *kind), "{line:?}");
    }
}

#[test]
fn first_two_lines(rt: HostRuntime) {
    let alloc = rt.alloc();
    expect(
        &rt,
        alloc,
        &[
            (b"", Kind::BadHeader, 1),
            (b"grub 1", Kind::CutShort, 1),
            (b"grub 3\n", Kind::BadHeader, 1),
            (b"grub 1\r\n", Kind::BadHeader, 1),
            (b"\n", Kind::BadHeader, 1),
            (b"grub 1\n", Kind::MissingQueue, 2),
            (b"grub 1\n\n", Kind::MissingQueue, 2),
            (b"grub 1\n queue 1 0\n", Kind::MissingQueue, 2),
            (b"grub 1\nqueue\r 1 0\n", Kind::MissingQueue, 2),
            (b"grub 1\ntask A 4 8\n", Kind::MissingQueue, 2),
            (b"grub 1\nqueue 1 0", Kind::CutShort, 2),
            (b"grub 1\nqueue 01 0\n", Kind::BadNumber, 2),
            (b"grub 1\nqueue x 0\n", Kind::BadNumber, 2),
            (b"grub 1\nqueue 1 0\r\n", Kind::BadNumber, 2),
            (b"grub 1\nqueue 1048576\n", Kind::BadLine, 2),
            // An empty word fits no form, also where a number is to stand.
            (b"grub 1\nqueue 1 \n", Kind::BadLine, 2),
            (b"grub 1\nqueue  1\n", Kind::BadLine, 2),
            (b"grub 1\nqueue  \n", Kind::BadLine, 2),
            (b"grub 1\nqueue 1 0 \n", Kind::BadLine, 2),
            (b"grub 1\nqueue 1048577 x\n", Kind::BadNumber, 2),
            (b"grub 1\nqueue 1048577 0\n", Kind::OutOfRange, 2),
            (b"grub 1\nqueue 5 6\n", Kind::OutOfRange, 2),
        ],
    );
    assert!(rt; have_fault(alloc, &[], at(Kind::MissingQueue, 0, 1)));
    assert!(rt; have_fault(alloc, &[b"grub 1\nqueue 1 0\n"], None));
}

#[test]
fn third_lines(rt: HostRuntime) {
    let alloc = rt.alloc();
    expect_third(
        &rt,
        alloc,
        b"grub 1\n",
        &[
            (b"", Kind::BadLine),
            (b"at 2147483648 read", Kind::OutOfRange),
            (b"task A 9 8", Kind::OutOfRange),
            (b"at 0 join Z", Kind::UnknownTask),
            (b"at 0 run A 0", Kind::OutOfRange),
            (b"at 0 run A 16777217", Kind::OutOfRange),
            (b"task A 0 0", Kind::OutOfRange),
            (
                b"at 99999999999999999999999999999999999999999 read",
                Kind::OutOfRange,
            ),
            (b"at +1 read", Kind::BadNumber),
            (b"at 00 read", Kind::BadNumber),
            (b"at x read", Kind::BadNumber),
            (b"task A 4 x", Kind::BadNumber),
            (b"at x jump A", Kind::BadLine),
            (b"at  0 read", Kind::BadLine),
            (b"at 0 read\r", Kind::BadLine),
            (b"at 0 join ABCDEFGHIJKLMNOPQ", Kind::BadLine),
            (b"at 0 join A\xff", Kind::BadLine),
            (b"at 0 join A\r", Kind::BadLine),
            (b"queue 1 0", Kind::BadLine),
            // A misspelled number comes before one that is out of range, wherever it stands.
            (b"at 2147483648 run A 01", Kind::BadNumber),
            (b"at 2147483648 run A 1", Kind::OutOfRange),
            (b"at 0 run A 1\r", Kind::BadNumber),
            (b"at 0 retune A 4 8", Kind::BadLine),
            (b"at 0 retune A 04 8", Kind::BadLine),
            (b" at 0 read", Kind::BadLine),
            (b"at 0 read ", Kind::BadLine),
            // An empty word fits no form, also where a number is to stand.
            (b"task A 4 ", Kind::BadLine),
            (b"task A  8", Kind::BadLine),
            (b"task A  ", Kind::BadLine),
            (b"at  read", Kind::BadLine),
            (b"at  join A", Kind::BadLine),
            (b"at 0 run A ", Kind::BadLine),
            (b"at  run A 1", Kind::BadLine),
            (b" ", Kind::BadLine),
        ],
    );
}

#[test]
fn retune_lines(rt: HostRuntime) {
    let alloc = rt.alloc();
    expect(
        &rt,
        alloc,
        &[
            (
                b"grub 1\nqueue 1048576 0\ntask A 4 8\nat 0 retune A 2 8\n",
                Kind::BadLine,
                4,
            ),
            (
                b"grub 3\nqueue 1048576 0\ntask A 4 8\nat 0 retune A 2 8\n",
                Kind::BadHeader,
                1,
            ),
            (
                b"grub 2\nqueue 1048576 0\ntask A 4 8\nat 0 retune A 9 8\n",
                Kind::OutOfRange,
                4,
            ),
            (
                b"grub 2\nqueue 1048576 0\ntask A 4 8\nat 0 retune A 04 8\n",
                Kind::BadNumber,
                4,
            ),
        ],
    );
    expect_third(
        &rt,
        alloc,
        b"grub 2\n",
        &[
            (b"at 0 retune A 1 16777216", Kind::OutOfRange),
            (b"at 2147483648 retune A 4 8", Kind::OutOfRange),
            (b"at 2147483648 retune A 4 x", Kind::BadNumber),
            (b"at 0 retune A 4", Kind::BadLine),
            (b"at 0 retune A 4 ", Kind::BadLine),
            (b"at 0 retune A  8", Kind::BadLine),
            (b"at  retune A 4 8", Kind::BadLine),
            (b"at 0 retune A 4 8 9", Kind::BadLine),
            (b"at 0 retune Z 4 8", Kind::UnknownTask),
        ],
    );
}

#[test]
fn faults_of_later_lines(rt: HostRuntime) {
    let alloc = rt.alloc();
    expect(
        &rt,
        alloc,
        &[
            (
                b"grub 1\nqueue 1 0\nat 6 read\nat 5 read\n",
                Kind::MomentGoesBack,
                4,
            ),
            (
                b"grub 1\nqueue 1 0\ntask A 4 8\ntask A 4 8\n",
                Kind::DuplicateTask,
                4,
            ),
            (
                b"grub 1\nqueue 1 0\nat 0 join A\ntask A 4 8\n",
                Kind::BadLine,
                4,
            ),
            // The first line with a fault is answered, and unknown names come last of all.
            (
                b"grub 1\nqueue 1 0\nat 0 join Z\nat 0 jump Z\n",
                Kind::BadLine,
                4,
            ),
            (
                b"grub 1\nqueue 1 0\nat 0 jump Z\nat 0 read",
                Kind::BadLine,
                3,
            ),
            (
                b"grub 1\nqueue 1 0\nat 6 read\nat 5 join Z\n",
                Kind::MomentGoesBack,
                4,
            ),
        ],
    );
}

const DECLARES: &[u8] = b"grub 1\nqueue 1 0\ntask A 1 1\n";

const USES: &[u8] = b"grub 2\nqueue 1 0\nat 0 join A\n";

const UNKNOWN: &[u8] = b"grub 1\nqueue 1 0\nat 0 join Z\n";

/// Several files, with their fault, its file, and its line.
const SEVERAL: &[(&[&[u8]], Kind, usize, usize)] = &[
    (&[DECLARES, DECLARES], Kind::DuplicateTask, 1, 3),
    (&[UNKNOWN, b""], Kind::BadHeader, 1, 1),
    (&[DECLARES, UNKNOWN, UNKNOWN], Kind::UnknownTask, 1, 3),
];

#[test]
fn faults_of_several_files(rt: HostRuntime) {
    let alloc = rt.alloc();
    for (texts, kind, file, line) in SEVERAL {
        assert!(rt;
            have_fault(alloc, *texts, at(*kind, *file, *line)),
            "{kind}"
        );
    }
    assert!(rt; have_fault(alloc, &[USES, DECLARES], None));
}

/// Whether a file of 256 tasks that goes on so has this fault, or none.
fn tasks_have_fault(alloc: Global, more: &[u8], fault: Option<TraceFault>) -> bool {
    match text_of_tasks(alloc, more) {
        Ok(text) => have_fault(alloc, &[&text], fault),
        Err(AllocError) => false,
    }
}

/// A file of 256 tasks, named by their numbers, that goes on so.
fn text_of_tasks(alloc: Global, more: &[u8]) -> Result<Vec<u8>, AllocError> {
    let mut text = Vec::from_slice(alloc, SMALL)?;
    for number in 0u32..256 {
        let line = format!(in alloc; "task {number} 1 1\n")?;
        text.extend_from_slice(line.as_bytes())?;
    }
    text.extend_from_slice(more)?;
    Ok(text)
}

const SMALL: &[u8] = b"grub 1\nqueue 1 0\n";

#[test]
fn too_many(rt: HostRuntime) {
    let alloc = rt.alloc();
    assert!(rt; have_fault(alloc, &[SMALL; 64], None));
    let mut files = [SMALL; 65];
    files[64] = b"";
    assert!(rt; have_fault(alloc, &files, at(Kind::OutOfRange, 64, 1)));

    let out_of_range = at(Kind::OutOfRange, 0, 259);
    assert!(rt; tasks_have_fault(alloc, b"", None));
    assert!(rt; tasks_have_fault(alloc, b"task 256 1 1\n", out_of_range));
    // The 257th task is out of range, though its name was declared before.
    assert!(rt; tasks_have_fault(alloc, b"task 0 1 1\n", out_of_range));
}

/// The number of lines that are ended.
fn lines_in(text: &[u8]) -> usize {
    text.iter().filter(|b| **b == b'\n').count()
}

/// Whether this text reads as a plan whose first script has so many lines.
fn has_lines(alloc: Global, text: &[u8], count: usize) -> bool {
    let Ok(plan) = plan_of(alloc, &[text]) else {
        return false;
    };
    plan.files() > 0 && plan.script(0).len() == count
}

/// Whether the example up to some byte reads as it should.
fn is_cut_well(alloc: Global, text: &[u8]) -> bool {
    let lines = lines_in(text);
    let fault = match text.len() {
        0 => at(Kind::BadHeader, 0, 1),
        7 => at(Kind::MissingQueue, 0, 2),
        _ if text.ends_with(b"\n") => return has_lines(alloc, text, lines.saturating_sub(4)),
        _ => at(Kind::CutShort, 0, lines.saturating_add(1)),
    };
    have_fault(alloc, &[text], fault)
}

#[test]
fn each_cut(rt: HostRuntime) {
    let alloc = rt.alloc();
    let file = documentation::FILE.as_bytes();
    for end in 0..=file.len() {
        assert!(rt; is_cut_well(alloc, &file[..end]), "up to {end}");
    }
}

/// Whether a fault is told so.
fn is_told<D: Display + Drop>(alloc: Global, fault: D, text: &str) -> bool {
    match format!(in alloc; "{fault}") {
        Ok(told) => told.as_str() == text,
        Err(AllocError) => false,
    }
}

/// What is printed of each kind.
const KIND_TEXTS: &[(Kind, &str)] = &[
    (Kind::BadHeader, "28 BadHeader"),
    (Kind::BadLine, "29 BadLine"),
    (Kind::BadNumber, "30 BadNumber"),
    (Kind::OutOfRange, "31 OutOfRange"),
    (Kind::DuplicateTask, "32 DuplicateTask"),
    (Kind::UnknownTask, "33 UnknownTask"),
    (Kind::MomentGoesBack, "34 MomentGoesBack"),
    (Kind::MissingQueue, "35 MissingQueue"),
    (Kind::CutShort, "36 CutShort"),
];

#[test]
fn fault_texts(rt: HostRuntime) {
    let alloc = rt.alloc();
    for (kind, text) in KIND_TEXTS {
        assert!(rt; is_told(alloc, *kind, *text), "{text}");
    }
    let fault = TraceFault::At {
        kind: Kind::CutShort,
        file: 1,
        line: 7,
    };
    assert!(rt; is_told(alloc, fault, "36 CutShort at 1:7"));
    assert!(rt; is_told(alloc, TraceFault::NoMemory, "37 NoMemory"));
    assert!(rt; is_told(alloc, TextFault::NoMemory, "43 NoMemory"));
}
