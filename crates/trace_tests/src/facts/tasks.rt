//! Which tasks are meant, and which a trace shows.

use crate::facts::fixtures::{facts_of, place, tasks_of};
use convert_facts::{Counted, FactLines, Facts, LineFault, Wrong};
use std::alloc::{AllocError, Global};
use std::test::Fail;

/// What four lines tell of five tasks on two runqueues.
fn read_names(alloc: Global) -> Result<Facts, AllocError> {
    let tasks = [
        b"b".as_slice(),
        b"007".as_slice(),
        b"a".as_slice(),
        b"7".as_slice(),
        b"sugov:0".as_slice(),
    ];
    let lines = FactLines::new(alloc, tasks.as_slice(), Some(2))?;
    let text = [
        b"# #P:65\nx-1 [0] 1.000001: sched_wakeup: comm=b pid=7 prio=120 target_cpu=0\n".as_slice(),
        b"x-1 [0] 1.000001: sched_wakeup: comm=sugov:0 pid=9 prio=-1 target_cpu=3\n".as_slice(),
        b"x-1 [0] 1.000001: sched_wakeup: comm=a pid=8 prio=-1 target_cpu=1\n".as_slice(),
        b"x-1 [0] 1.000001: sched_wakeup: comm=a pid=10 prio=-1 target_cpu=1\n".as_slice(),
    ];
    facts_of(alloc, lines, text.as_slice())
}

/// Whether the fault is that of the task a of pid 10, which is not known.
fn is_of_a_second_a(fault: &Option<LineFault>) -> bool {
    match fault {
        Some(
            LineFault {
                wrong: Wrong::UnknownTask { comm, pid },
                ..
            },
        ) => comm.as_slice() == b"a".as_slice() && *pid == 10,
        _ => false,
    }
}

#[test]
fn names_and_pids(rt: HostRuntime) -> Result<(), Fail> {
    assert!(rt; names_are_told(rt.alloc())?);
    Ok(())
}

/// Whether the two names that the lines have are found, with one fact of them, up to the fault.
fn are_names(told: &Facts) -> bool {
    place(&told.fault) == (5, 50)
        && is_of_a_second_a(&told.fault)
        && matches!(told.found.as_slice(), [None, Some(_), Some(_), None, None])
        && told.facts.len() == 1
        && told.facts[0].task == 2
        && told.runqueues == 2
}

fn names_are_told(alloc: Global) -> Result<bool, AllocError> {
    Ok(are_names(&read_names(alloc)?))
}

/// The tasks of five lines; None at a fault.
fn read_tasks(alloc: Global) -> Result<Option<Vec<Counted>>, AllocError> {
    let text = [
        b"x-1 [0] 1.000001: sched_wakeup: comm=old pid=8 prio=120 target_cpu=5\n".as_slice(),
        b"x-1 [4] 1.000001: sched_switch: prev_comm=a b prev_pid=8 prev_prio=-1 prev_state=S ==> next_comm=x next_pid=1 next_prio=120\n".as_slice(),
        b"x-1 [0] 1.000001: sched_wakeup: comm=sugov:0 pid=9 prio=-1 target_cpu=3\n".as_slice(),
        b"x-1 [0] 1.000001: sched_wakeup: comm=a b pid=8 prio=-1 target_cpu=1\n".as_slice(),
        b"x-1 [2] 1.000001: sched_switch: prev_comm=a b prev_pid=8 prev_prio=-1 prev_state=R+ ==> next_comm=x next_pid=1 next_prio=120\n".as_slice(),
    ];
    match tasks_of(alloc, text.as_slice())? {
        Ok(tasks) => Ok(Some(tasks.counted)),
        Err(_) => Ok(None),
    }
}

/// Whether these are the one task that is meant, with its wakes, blocks and processors.
fn are_one_task(tasks: &[Counted]) -> bool {
    let [task] = tasks else {
        return false;
    };
    task.comm.as_slice() == b"a b".as_slice()
        && task.pid == 8
        && task.line == 2
        && task.wakes == 1
        && task.blocks == 1
        && task.cpus.as_slice() == [1, 2, 4].as_slice()
}

fn a_task_is_counted(alloc: Global) -> Result<bool, AllocError> {
    match read_tasks(alloc)? {
        Some(tasks) => Ok(are_one_task(&tasks)),
        None => Ok(false),
    }
}

#[test]
fn tasks_of_a_trace(rt: HostRuntime) -> Result<(), Fail> {
    assert!(rt; a_task_is_counted(rt.alloc())?);
    Ok(())
}
