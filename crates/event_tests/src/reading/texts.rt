//! The texts of entries and reports.

ghost use Rattle.std.specs.Prelude.{length, All, IsTrue, ◌↔◌};
ghost use Rattle.grub_plan.specs.Plans.{IsAskOf};

use super::*;
use grub_book::{Op, Reading, Reply};
use std::test::Fail;

/// Whether an ask is of a task of the plan.
pub(super) fn is_of(plan: &Plan, ask: Ask) -> bool
    ensures { IsTrue result ↔ IsAskOf (length plan.now.setup.tasks) ask }
{
    match ask {
        Ask::Call { t, .. } => plan.setup().has_task(t),
        Ask::Read => true,
    }
}

fn call(m: u32, t: u32, op: Op, reply: Reply) -> Entry {
    Entry {
        m,
        ask: Ask::Call { t, op },
        answer: Answer::Replied(reply),
    }
}

/// Whether a text was made, and is this one.
pub(super) fn is_text(made: Result<Vec<u8>, TextFault>, wanted: &[u8]) -> bool {
    match made {
        Ok(text) => text.as_slice() == wanted,
        Err(TextFault::NoMemory) => false,
    }
}

/// Whether this text is the line of an entry.
fn has_line(alloc: Global, plan: &Plan, entry: &Entry, text: &[u8]) -> bool {
    is_of(plan, entry.ask) && is_text(line_of(alloc, plan, entry), text)
}

/// The entries of the example's run.
pub(super) fn example_entries() -> [Entry; 9] {
    let half = Reply::Joined { q: 4, d: 8 };
    let charged = |k: u32, q: u32, d: u32| Reply::Charged { dq: 2, k, q, d };
    [
        call(0, 0, Op::Join { r: 0, m: 0 }, half),
        call(0, 1, Op::Join { r: 0, m: 0 }, half),
        call(0, 0, Op::Charge { r: 0, dt: 2 }, charged(0, 2, 8)),
        call(
            2,
            0,
            Op::Block { r: 0, m: 2 },
            Reply::Waiting { ticket: 1, z: 4 },
        ),
        call(2, 1, Op::Charge { r: 0, dt: 2 }, charged(0, 2, 8)),
        call(4, 0, Op::Timer { ticket: 1, m: 4 }, Reply::Retired),
        call(4, 1, Op::Charge { r: 0, dt: 4 }, charged(1, 4, 16)),
        call(8, 0, Op::Wake { r: 0, m: 8 }, Reply::Woken { q: 4, d: 16 }),
        Entry {
            m: 8,
            ask: Ask::Read,
            answer: Answer::Seen(Reading {
                running: 1048576,
                this: 1048576,
            }),
        },
    ]
}

pub(super) static EXAMPLE_LINES: [&[u8]; 9] = [
    b"at 0 join T1: joined q=4 d=8\n",
    b"at 0 join T2: joined q=4 d=8\n",
    b"at 0 run T1 2: charged dq=2 k=0 q=2 d=8\n",
    b"at 2 block T1: waiting ticket=1 z=4\n",
    b"at 2 run T2 2: charged dq=2 k=0 q=2 d=8\n",
    b"at 4 timer T1 1: retired\n",
    b"at 4 run T2 4: charged dq=2 k=1 q=4 d=16\n",
    b"at 8 wake T1: woken q=4 d=16\n",
    b"at 8 read: running=1048576 this=1048576\n",
];

#[test]
fn lines_of_the_example(rt: HostRuntime) -> Result<(), TraceFault> {
    let alloc = rt.alloc();
    let plan = plan_of(alloc, &[documentation::FILE.as_bytes()])?;
    for (entry, text) in example_entries().iter().zip(&EXAMPLE_LINES) {
        assert!(rt; has_line(alloc, &plan, entry, text), "{text:?}");
    }
    Ok(())
}

const JOIN: Op = Op::Join { r: 0, m: 7 };

const BLOCK: Op = Op::Block { r: 0, m: 7 };

const TIMER: Op = Op::Timer { ticket: 3, m: 7 };

/// What is asked of T2 at 7, what is answered, and its line: each ask and each answer once, apart from those of the example.
const LINES: &[(Op, Answer, &[u8])] = &[
    (
        BLOCK,
        Answer::Replied(Reply::Asleep),
        b"at 7 block T2: asleep\n",
    ),
    (
        Op::Leave,
        Answer::Replied(Reply::Left { r: 0 }),
        b"at 7 leave T2: left 0\n",
    ),
    (
        Op::Exit,
        Answer::Replied(Reply::Ended),
        b"at 7 exit T2: ended\n",
    ),
    (
        Op::Retune { q: 2, p: 8 },
        Answer::Replied(Reply::Retuned),
        b"at 7 retune T2 2 8: retuned\n",
    ),
    (JOIN, Answer::Replied(Reply::Gone), b"at 7 join T2: gone\n"),
    (
        Op::Leave,
        Answer::Replied(Reply::NotOn),
        b"at 7 leave T2: not-on\n",
    ),
    (
        JOIN,
        Answer::Replied(Reply::AlreadyOn(63)),
        b"at 7 join T2: already-on 63\n",
    ),
    (
        Op::Wake { r: 1, m: 7 },
        Answer::Replied(Reply::Elsewhere(0)),
        b"at 7 wake T2: elsewhere 0\n",
    ),
    (
        Op::Wake { r: 0, m: 7 },
        Answer::Replied(Reply::AlreadyContending),
        b"at 7 wake T2: already-contending\n",
    ),
    (
        Op::Charge { r: 0, dt: 16777216 },
        Answer::Replied(Reply::NotContending),
        b"at 7 run T2 16777216: not-contending\n",
    ),
    (
        Op::Leave,
        Answer::Replied(Reply::StillContending),
        b"at 7 leave T2: still-contending\n",
    ),
    (
        Op::Exit,
        Answer::Replied(Reply::StillActive),
        b"at 7 exit T2: still-active\n",
    ),
    (
        BLOCK,
        Answer::Replied(Reply::Worn),
        b"at 7 block T2: worn\n",
    ),
    (
        TIMER,
        Answer::Replied(Reply::Stale),
        b"at 7 timer T2 3: stale\n",
    ),
    (
        TIMER,
        Answer::Replied(Reply::Early(9)),
        b"at 7 timer T2 3: early z=9\n",
    ),
    (JOIN, Answer::Replied(Reply::Full), b"at 7 join T2: full\n"),
    (
        Op::Charge { r: 0, dt: 1 },
        Answer::Replied(Reply::DeadlineOverflow),
        b"at 7 run T2 1: deadline-overflow\n",
    ),
    (JOIN, Answer::Busy, b"at 7 join T2: busy\n"),
    (JOIN, Answer::Lost, b"at 7 join T2: lost\n"),
];

#[test]
fn lines(rt: HostRuntime) -> Result<(), TraceFault> {
    let alloc = rt.alloc();
    let plan = plan_of(alloc, &[documentation::FILE.as_bytes()])?;
    for (op, answer, text) in LINES {
        let entry = Entry {
            m: 7,
            ask: Ask::Call { t: 1, op: *op },
            answer: *answer,
        };
        assert!(rt; has_line(alloc, &plan, &entry, *text), "{text:?}");
    }
    Ok(())
}

/// Whether the asks of entries are of tasks of the plan.
pub(super) fn are_of(plan: &Plan, entries: &[Entry]) -> bool
    ensures { IsTrue result ↔ All (λ e. IsAskOf (length plan.now.setup.tasks) e.ask) entries.now }
{
    entries.iter().all(|e| is_of(plan, e.ask))
}

/// Whether a report of these entries is printed so, below and above what is said of a runqueue.
fn has_report(
    alloc: Global,
    plan: &Plan,
    report: &Report,
    closing: Reading,
    wanted: &[u8],
) -> bool {
    are_of(plan, &report.entries) && is_text(report_of(alloc, plan, 0, report, closing), wanted)
}

#[test]
fn report_of_the_example(rt: HostRuntime) -> Result<(), Fail> {
    let alloc = rt.alloc();
    let report = Report {
        entries: Vec::from_slice(alloc, &example_entries())?,
    };
    let plan = plan_of(alloc, &[documentation::FILE.as_bytes()])?;
    let closing = Reading {
        running: 1048576,
        this: 1048576,
    };
    assert!(rt;
        has_report(
            alloc,
            &plan,
            &report,
            closing,
            documentation::REPORT.as_bytes()
        )
    );
    Ok(())
}

#[test]
fn report_of_nothing(rt: HostRuntime) -> Result<(), TraceFault> {
    let alloc = rt.alloc();
    let plan = plan_of(alloc, &[b"grub 1\nqueue 1 0\n"])?;
    let report = Report {
        entries: Vec::new(alloc),
    };
    let text = b"runqueue 0\nclose running=0 this=0\n";
    assert!(rt; has_report(alloc, &plan, &report, NOTHING, text));
    Ok(())
}

const NOTHING: Reading = Reading {
    running: 0,
    this: 0,
};

/// A report of so many readings, and its text.
fn long_text(alloc: Global, count: u32) -> Result<(Report, Vec<u8>), AllocError> {
    let [.., read] = example_entries();
    let mut entries = Vec::new(alloc);
    let mut text = Vec::from_slice(alloc, b"runqueue 63\n")?;
    for _entry in 0..count {
        entries.push(read)?;
        text.extend_from_slice(b"at 8 read: running=1048576 this=1048576\n")?;
    }
    text.extend_from_slice(b"close running=0 this=0\n")?;
    Ok((Report { entries }, text))
}

/// More entries than the buffer has room for.
#[test]
fn long_report(rt: HostRuntime) -> Result<(), Fail> {
    let alloc = rt.alloc();
    let (report, wanted) = long_text(alloc, 5000)?;
    let plan = plan_of(alloc, &[documentation::FILE.as_bytes()])?;
    assert!(rt; are_of(&plan, &report.entries));
    assert!(rt; is_text(report_of(alloc, &plan, 63, &report, NOTHING), &wanted));
    Ok(())
}

/// The longest name and the greatest numbers.
#[test]
fn longest_line(rt: HostRuntime) -> Result<(), TraceFault> {
    let alloc = rt.alloc();
    let file: &[u8] = b"grub 1\nqueue 1 0\ntask ABCDEFGHIJKLMNOP 1 1\n";
    let plan = plan_of(alloc, &[file])?;
    let most = u32::MAX;
    let charged = Reply::Charged {
        dq: u64::MAX,
        k: most,
        q: most,
        d: most,
    };
    let entry = call(most, 0, Op::Retune { q: most, p: most }, charged);
    let line =
        b"at 4294967295 retune ABCDEFGHIJKLMNOP 4294967295 4294967295: charged dq=18446744073709551615 k=4294967295 q=4294967295 d=4294967295\n";
    assert!(rt; has_line(alloc, &plan, &entry, line));
    Ok(())
}
