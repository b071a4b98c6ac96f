//! Lines that are wrong, and texts that are cut.

use crate::facts::fixtures::{SWITCH, WAKE, fault_of, joined, number_of, pieces_of, tasks_of};
use std::alloc::{AllocError, Global};
use std::test::Fail;

/// Texts, and the line and the number of their first fault; zeros where there is none.
static FAULTS: [(&[u8], (u64, u64)); 18] = [
    (
        b"\na-1 [3] 1.000001: sched_wakeup: comm=gr_2 pid=12928 prio=-1 target_cpu=003\n",
        (2, 50),
    ),
    (
        b"a-1 [3] 1.000001: hrtimer_expire_entry: hrtimer=1 function=inactive_task_timer now=1001001000\n",
        (0, 0),
    ),
    (
        b"a-1 [3] 1.000001: hrtimer_expire_entry: hrtimer=1 function=inactive_task_timer now=1001001001\n",
        (1, 51),
    ),
    (
        b"a-1 [3] 2.000001: hrtimer_expire_entry: hrtimer=1 function=inactive_task_timer now=1\n",
        (1, 51),
    ),
    (
        b"a-1 [3] 2.000001: hrtimer_expire_entry: hrtimer=1 function=hrtimer_wakeup now=1\n",
        (0, 0),
    ),
    (
        b"# tracer: nop\n#\n# entries-in-buffer/entries-written: 9/10   #P:4\n",
        (3, 52),
    ),
    (
        b"# entries-in-buffer/entries-written: 010/10   #P:4\n",
        (0, 0),
    ),
    (b"CPU:2 [LOST 12 EVENTS]\n", (1, 52)),
    (b"CPU:2 [LOST EVENTS]", (1, 52)),
    (
        b" perf  1 [001]   1.456789: PERF_RECORD_LOST_SAMPLES lost 5\n",
        (1, 52),
    ),
    (b"#P:0 x\n", (0, 0)),
    (b"# x #P:0\n", (1, 54)),
    (b"# x #P:65\n", (1, 54)),
    (b"a-1 [064] 1.000001: hrtimer_cancel: hrtimer=1\n", (1, 54)),
    (
        b"a-1 [0] 1.000001: sched_wakeup: comm=b pid=1 prio=120 target_cpu=64\n",
        (1, 54),
    ),
    (
        b"# #P:2\na-1 [3] 1.000001: sched_wakeup: comm=b pid=77 prio=-1 target_cpu=2\n",
        (2, 54),
    ),
    (
        b"# #P:2\na-1 [3] 1.000001: sched_migrate_task: comm=b pid=77 prio=-1 dest_cpu=2\n",
        (2, 54),
    ),
    (
        b"# #P:2\na-1 [3] 1.000001: sched_migrate_task: comm=b pid=78 prio=-1 dest_cpu=2\n",
        (0, 0),
    ),
];

/// Whether this is the first fault of a text.
fn is_fault_of(alloc: Global, text: &[u8], fault: (u64, u64)) -> bool {
    is_fault(fault_of(alloc, text), fault)
}

#[test]
fn faults_of_lines(rt: HostRuntime) {
    for (text, fault) in &FAULTS {
        assert!(rt; is_fault_of(rt.alloc(), text, *fault), "{fault:?}");
    }
}

/// Lines that lack a field, or have a number that is none.
static BAD: [&[u8]; 14] = [
    b"a-1 1.000001: hrtimer_cancel: hrtimer=1\n",
    b"a-1 [x] 1.000001: hrtimer_cancel: hrtimer=1\n",
    b"a-1 [0] 1.000001: hrtimer_cancel: hrtimer=\n",
    b"a-1 [0] 1.000001: hrtimer_start: hrtimer=1 expires=2\n",
    b"a- [0] 1.000001: hrtimer_start: hrtimer=1 function=inactive_task_timer expires=2\n",
    b"a-1 [0] 1.000001: hrtimer_start: hrtimer=1 function=inactive_task_timer expires=-2\n",
    b"a-1 [0] 1.000001: hrtimer_expire_entry: hrtimer=1 now=2\n",
    b"a-1 [0] 1.000001: sched_wakeup: comm=b pid=x prio=-1 target_cpu=0\n",
    b"a-1 [0] 1.000001: sched_wakeup: comm=b pid=1 prio=+1 target_cpu=0\n",
    b"a-1 [0] 1.000001: sched_wakeup: comm=b pid=1 prio=120\n",
    b"a-1 [0] 1.000001: sched_wakeup: pid=1 prio=120 target_cpu=1\n",
    b"a-1 [0] 1.000001: sched_stat_runtime: comm=b pid=1 runtime=1.5\n",
    b"a-1 [0] 1.000001: sched_switch: gr_0:3001 [-1] S ==> swapper/3:0 [120]\n",
    b"a-1 [0] 1.000001: sched_switch: prev_comm=b prev_pid=1 prev_prio=-1 prev_state= ==> next_comm=c next_pid=1 next_prio=120\n",
];

/// Lines that tell nothing.
static NOTHING: [&[u8]; 6] = [
    b"a-1 [0] 1.00001: hrtimer_cancel: x\n",
    b"a-1 [0] 1.0000000001: hrtimer_cancel: x\n",
    b"a-1 [0] 1.000001 hrtimer_cancel: x\n",
    b"a-1 [0] 1.000001: sched_waking: x\n",
    b"#a-1 [0] 1.000001: hrtimer_cancel: x\n",
    b"1.000001:\n",
];

#[test]
fn lines_that_lack_something(rt: HostRuntime) {
    for text in &BAD {
        assert!(rt; is_fault_of(rt.alloc(), text, (1, 55)), "{text:?}");
    }
}

#[test]
fn lines_that_tell_nothing(rt: HostRuntime) {
    for text in &NOTHING {
        assert!(rt; is_fault_of(rt.alloc(), text, (0, 0)), "{text:?}");
    }
}

/// The fault of the lines of a wake and a switch, cut after so many bytes.
fn fault_after(k: usize) -> (u64, u64) {
    match k {
        0 => (0, 0),
        _ if k == WAKE.len() => (0, 0),
        _ if k < WAKE.len() => (1, 55),
        _ => (2, 55),
    }
}

/// Whether each beginning of a text has the fault of one that is cut there, and the whole has none.
fn is_cut_well(alloc: Global, whole: &[u8]) -> bool {
    for k in 0..whole.len() {
        let (front, _) = whole.split_at(k);
        if !is_fault_of(alloc, front, fault_after(k)) {
            return false;
        }
    }
    is_fault_of(alloc, whole, (0, 0))
}

#[test]
fn a_text_that_is_cut(rt: HostRuntime) -> Result<(), Fail> {
    let text = joined(rt.alloc(), &[WAKE, SWITCH])?;
    assert!(rt; is_cut_well(rt.alloc(), &text));
    Ok(())
}

/// The first fault of a trace that `tasks` reads.
fn fault_counted(alloc: Global, text: &[u8]) -> Result<(u64, u64), AllocError> {
    match tasks_of(alloc, &pieces_of(alloc, text, 5)?)? {
        Ok(_) => Ok((0, 0)),
        Err(fault) => Ok((fault.line, number_of(&fault.wrong))),
    }
}

/// The same of a line between a wake and a switch.
fn fault_between(alloc: Global, line: &[u8]) -> Result<(u64, u64), AllocError> {
    let text = joined(alloc, &[WAKE, line, SWITCH])?;
    fault_counted(alloc, text.as_slice())
}

/// Whether each beginning of a text has, for `tasks`, the fault of one that is cut there.
fn is_counted_well(alloc: Global, whole: &[u8]) -> bool {
    for k in 0..whole.len() {
        let (front, _) = whole.split_at(k);
        if !is_fault(fault_counted(alloc, front), fault_after(k)) {
            return false;
        }
    }
    true
}

fn is_fault(found: Result<(u64, u64), AllocError>, fault: (u64, u64)) -> bool {
    match found {
        Ok(found) => found == fault,
        Err(_) => false,
    }
}

/// Lines, and the number of the fault of each.
static COUNTED: [(&[u8], u64); 4] = [
    (
        b"a-1 [3] 2.000001: hrtimer_expire_entry: hrtimer=1 function=inactive_task_timer now=1\n",
        51,
    ),
    (b"CPU:2 [LOST 12 EVENTS]\n", 52),
    (
        b"a-1 [0] 1.000001: sched_wakeup: comm=b pid=1 prio=120 target_cpu=8192\n",
        54,
    ),
    (b"a-1 [0] 1.000001: hrtimer_cancel: hrtimer=\n", 55),
];

/// The tasks of a trace are told with its faults: 51, 52, 54 and 55.
#[test]
fn faults_of_the_tasks(rt: HostRuntime) -> Result<(), Fail> {
    let text = joined(rt.alloc(), &[WAKE, SWITCH])?;
    assert!(rt; is_counted_well(rt.alloc(), &text));
    for (line, number) in &COUNTED {
        assert!(rt;
            is_fault(fault_between(rt.alloc(), line), (2, *number)),
            "{number}"
        );
    }
    Ok(())
}
