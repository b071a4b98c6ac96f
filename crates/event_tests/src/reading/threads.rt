//! Files that are read by threads: the plan and the fault are those of one thread.

use super::*;
use std::test::Fail;
use std::thread::Threads;

const DECLARES: &[u8] = b"grub 1\nqueue 1 0\ntask A 1 2\nat 5 join A\n";

const USES: &[u8] = b"grub 1\nqueue 1 0\nat 6 wake A\nat 7 read\n";

const UNKNOWN: &[u8] = b"grub 1\nqueue 1 0\nat 6 wake B\nat 7 wake C\n";

const GOES_BACK: &[u8] = b"grub 1\nqueue 1 0\nat 6 wake A\nat 5 read\n";

const CUT: &[u8] = b"grub 1\nqueue 1 0\nat 6 read";

const HEADLESS: &[u8] = b"grub 3\n";

/// Several files, with their fault, its file, and its line.
const CASES: &[(&[&[u8]], Kind, usize, usize)] = &[
    (&[DECLARES, HEADLESS], Kind::BadHeader, 1, 1),
    (&[DECLARES, DECLARES], Kind::DuplicateTask, 1, 3),
    // What is wrong below a head comes before a later head.
    (&[GOES_BACK, HEADLESS], Kind::MomentGoesBack, 0, 4),
    (&[USES, CUT, DECLARES, DECLARES], Kind::CutShort, 1, 3),
    (&[USES, CUT, GOES_BACK], Kind::CutShort, 1, 3),
    // A name that no file declares comes last, the first one of all.
    (&[UNKNOWN, GOES_BACK], Kind::MomentGoesBack, 1, 4),
    (&[UNKNOWN, DECLARES, HEADLESS], Kind::BadHeader, 2, 1),
    (&[DECLARES, UNKNOWN, UNKNOWN], Kind::UnknownTask, 1, 3),
];

/// Whether this is what is answered to files of these bytes, by one thread and by several.
fn have_fault(
    rt: &(impl Threads + Sync),
    alloc: Global,
    texts: &[&[u8]],
    fault: TraceFault,
) -> bool {
    let Ok(files) = files_of(alloc, texts) else {
        return false;
    };
    read_files(alloc, &files).err() == Some(fault)
        && read_files_by_threads(rt, alloc, &files).err() == Some(fault)
}

#[test]
fn same_fault(rt: HostRuntime) {
    let alloc = rt.alloc();
    for (texts, kind, file, line) in CASES {
        let fault = TraceFault::At {
            kind: *kind,
            file: *file,
            line: *line,
        };
        assert!(rt; have_fault(&rt, alloc, *texts, fault), "{fault:?}");
    }
}

/// The script of `USES`.
const USES_SCRIPT: [Line; 2] = [
    Line {
        m: 6,
        act: Act::Wake(0),
    },
    Line {
        m: 7,
        act: Act::Read,
    },
];

/// The script of `DECLARES`.
const DECLARES_SCRIPT: [Line; 1] = [Line {
    m: 5,
    act: Act::Join(0),
}];

/// Whether a plan is that of a file between two that use its task.
fn is_of_three(plan: &Plan) -> bool {
    plan.files() == 3
        && plan.script(0) == USES_SCRIPT.as_slice()
        && plan.script(1) == DECLARES_SCRIPT.as_slice()
        && plan.script(2) == USES_SCRIPT.as_slice()
}

#[test]
fn same_plan(rt: HostRuntime) -> Result<(), Fail> {
    let alloc = rt.alloc();
    let files = files_of(alloc, &[USES, DECLARES, USES])?;
    assert!(rt; is_of_three(&read_files(alloc, &files)?));
    assert!(rt; is_of_three(&read_files_by_threads(&rt, alloc, &files)?));
    Ok(())
}
