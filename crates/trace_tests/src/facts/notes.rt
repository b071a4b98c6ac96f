//! Tasks that notes give, and notes that are wrong.

use crate::facts::fixtures::{WAKE, facts_of, fault_of, joined, tasks_of};
use convert_facts::{FactLines, Facts};
use std::alloc::{AllocError, Global};
use std::test::Fail;

/// Notes of two tasks, the first of which changes what it reserves, and of one of another class.
const NOTES: &[u8] = b"# grub: notes 1 kernel=6.18.44 domain=0-3 max-bw=996147 total-bw=0
# grub: task pid=12926 at=1.500000 by=12926 cpu=2 runtime=5000999 deadline=50000000 period=50000999 flags=0x2 comm=gr_0
# grub: task pid=12926 at=1.600000 by=12926 cpu=2 runtime=6000000 deadline=50000000 period=50000000 flags=0x2 comm=gr_0
# grub: task pid=9 at=start cpu=2 policy=0 comm=x
# grub: task pid=8 at=start cpu=2 runtime=3000000 deadline=20000000 period=30000000 flags=0x0 comm=a b
# grub: task pid=7 at=start cpu=2 runtime=1000000 deadline=10000000 period=10000000 flags=0x0 comm=sugov:0
";

/// What the notes and a wake of the first task tell, where these tasks are given.
fn read(alloc: Global, names: &[&[u8]]) -> Result<Facts, AllocError> {
    let lines = FactLines::new(alloc, names, None)?;
    facts_of(alloc, lines, &[NOTES, WAKE])
}

/// Whether the wake is that of the task of a number, and notes give tasks with these reservations.
fn are_noted(told: &Facts, task: usize, noted: &[(u32, u32)]) -> bool {
    let [fact] = told.facts.as_slice() else {
        return false;
    };
    for (params, wanted) in told.noted.iter().zip(noted) {
        if (params.runtime(), params.period()) != *wanted {
            return false;
        }
    }
    fact.task == task && told.noted.len() == noted.len() && told.fault.is_none()
}

/// The tasks that options give, which of all tasks wakes, and what those of notes reserve.
static GIVEN: [(&[&[u8]], usize, &[(u32, u32)]); 4] = [
    (&[], 0, &[(5000, 50000), (3000, 30000)]),
    (&[b"gr_0"], 0, &[(3000, 30000)]),
    (&[b"a b", b"12926"], 1, &[]),
    (&[b"y"], 1, &[(5000, 50000), (3000, 30000)]),
];

/// Whether notes give tasks so.
fn gives(alloc: Global, names: &[&[u8]], task: usize, noted: &[(u32, u32)]) -> bool {
    match read(alloc, names) {
        Ok(told) => are_noted(&told, task, noted),
        Err(_) => false,
    }
}

#[test]
fn a_note_gives_a_task_that_no_option_gives(rt: HostRuntime) {
    for (names, task, noted) in &GIVEN {
        assert!(rt; gives(rt.alloc(), names, *task, noted), "{task}");
    }
}

/// Notes that are wrong, and the number of the fault: of what is wrong, of a period of 17 seconds, and of a CPU above 8191.
static WRONG: [(&[u8], u64); 4] = [
    (b"# grub: task pid=9 at=start cpu=2 comm=x\n", 55),
    (b"# grub: notes 2 kernel=6.18.44\n", 55),
    (
        b"# grub: task pid=9 at=start cpu=2 runtime=5000000 deadline=17000000000 period=17000000000 flags=0x0 comm=x\n",
        54,
    ),
    (
        b"# grub: task pid=9 at=start cpu=8192 runtime=5000000 deadline=50000000 period=50000000 flags=0x0 comm=x\n",
        54,
    ),
];

fn is_wrong(alloc: Global, note: &[u8], number: u64) -> bool {
    match joined(alloc, [b"\n".as_slice(), note, WAKE].as_slice()) {
        Ok(text) => matches!(fault_of(alloc, &text), Ok((2, found)) if found == number),
        Err(_) => false,
    }
}

#[test]
fn a_note_that_is_wrong_is_told(rt: HostRuntime) {
    for (note, number) in &WRONG {
        assert!(rt; is_wrong(rt.alloc(), note, *number), "{number}");
    }
}

/// How many tasks `tasks` shows of the notes and a wake, and how many reservations.
fn counts(alloc: Global) -> Result<Option<(usize, usize)>, AllocError> {
    match tasks_of(alloc, &[NOTES, WAKE])? {
        Ok(tasks) => Ok(Some((tasks.counted.len(), tasks.reserved.len()))),
        Err(_) => Ok(None),
    }
}

#[test]
fn reservations_are_shown_with_the_tasks(rt: HostRuntime) -> Result<(), Fail> {
    assert_eq!(rt; counts(rt.alloc())?, Some((1, 4)));
    Ok(())
}
