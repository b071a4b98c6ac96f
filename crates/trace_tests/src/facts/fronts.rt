//! What stands in front of an event, comms, and the ends of lines.

use crate::facts::fixtures::{joined, numbers_of, read, tells};
use convert_facts::{Facts, What};
use std::alloc::{AllocError, Global};
use std::test::Fail;
use trace_data::Stop;

/// Wakes of the second task, whose comm looks like something else.
static COMMS: [&[u8]; 3] = [
    b"a-1 [3] 1.000001: sched_wakeup: comm= pid=77 prio=-1 target_cpu=003\n",
    b"a-1 [3] 1.000001: sched_wakeup: comm=x prio=120 y=z pid=77 prio=-1 target_cpu=003\n",
    b"a-1 [3] 1.000001: sched_wakeup: comm=sched_switch: a pid=77 prio=-1 target_cpu=003\n",
];

/// Whether a line tells that the second task wakes at 1.000001 on runqueue 3.
fn tells_wake(alloc: Global, line: &[u8]) -> bool {
    matches!(
        tells(alloc, line, 1000001000, 1, What::Wakes { cpu: 3 }),
        Ok(true)
    )
}

#[test]
fn a_comm_may_be_anything(rt: HostRuntime) -> Result<(), Fail> {
    for line in &COMMS {
        assert!(rt; tells_wake(rt.alloc(), line), "{line:?}");
    }
    assert!(rt; a_comm_of_words_is_told(rt.alloc())?);
    Ok(())
}

/// Whether a text tells that the task of this comm blocks, and that it was found.
fn is_found_blocking(told: &Facts, comm: &[u8]) -> bool {
    let stop = What::Stops {
        cpu: 3,
        state: Stop::Blocks,
    };
    let ([fact], [_, Some(found)]) = (told.facts.as_slice(), told.found.as_slice()) else {
        return false;
    };
    fact.what == stop && found.comm.as_slice() == comm && found.pid == 77 && found.line == 1
}

/// Whether a comm that looks like the fields after it is told whole.
fn a_comm_of_words_is_told(alloc: Global) -> Result<bool, AllocError> {
    let line =
        b"a-1 [3] 1.000001: sched_switch: prev_comm=a prev b prev_pid=77 prev_prio=-1 prev_state=S ==> next_comm=prev_state=R next_pid=1 next_prio=120\n";
    let told = read(alloc, line)?;
    Ok(is_found_blocking(&told, b"a prev b"))
}

#[test]
fn lines_end_as_they_may(rt: HostRuntime) -> Result<(), Fail> {
    let alloc = rt.alloc();
    let line = b"a-1 [3] 1.000001: sched_wakeup: comm=b pid=77 prio=-1 target_cpu=003\r\n";
    assert!(rt; tells_wake(alloc, line));
    assert_eq!(rt; numbers_of(alloc, b"\n\r\n# x\na\n")?, Some((0, 1)));
    Ok(())
}

/// Whether a timer that is armed is told after this front.
fn tells_armed(alloc: Global, front: &[u8]) -> Result<bool, AllocError> {
    let event =
        b"1.000001: timer:hrtimer_start: hrtimer=0x1 function=inactive_task_timer expires=3 mode=0x9\n".as_slice();
    let text = joined(alloc, &[front, event])?;
    let what = What::Armed { expires: 3 };
    tells(alloc, text.as_slice(), 1000001000, 1, what)
}

/// Fronts of the second task.
static FORMS: [&[u8]; 5] = [
    b"gr_0-77   (  77) [000] d..3.  ",
    b"a [9] (b)-77   (-----) [000] ",
    b"gr_0    77 [000]  ",
    b"a b 3/77 [00]  ",
    b"<...>-0077(  x) [000] ",
];

const PERF: &[u8] =
    b"gr_0  3001 [003]  3468.623219456:   sched:sched_wakeup: comm=b pid=77 prio=-1 target_cpu=003\n";

#[test]
fn each_form_of_the_front(rt: HostRuntime) -> Result<(), Fail> {
    for form in &FORMS {
        assert!(rt; tells_armed(rt.alloc(), form)?, "{form:?}");
    }
    assert!(rt; tells(rt.alloc(), PERF, 3468623219456, 1, What::Wakes { cpu: 3 })?);
    Ok(())
}
