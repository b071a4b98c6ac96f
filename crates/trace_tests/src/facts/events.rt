//! What each event tells.

use crate::facts::fixtures::{
    ARM, CANCEL, FIRE, SWITCH, WAKE, are_told, joined, numbers_of, read, tells,
};
use convert_facts::{Fact, What};
use std::alloc::{AllocError, Global};
use std::test::Fail;
use trace_data::Stop;

/// Lines, and of the fact that each tells the moment, the task and what happened.
static EVENTS: [(&[u8], u64, usize, What); 5] = [
    (WAKE, 1020402803000, 0, What::Wakes { cpu: 2 }),
    (
        SWITCH,
        1020381451000,
        0,
        What::Stops {
            cpu: 0,
            state: Stop::Blocks,
        },
    ),
    (
        b"a-1 [3] x 1.000001: sched_wakeup_new: comm=b pid=77 prio=-1 target_cpu=1\n",
        1000001000,
        1,
        What::Wakes { cpu: 1 },
    ),
    (
        b" gr_3-9 [0] d 1.0000001: sched_migrate_task: comm=gr_0 pid=8 prio=-1 orig_cpu=1 dest_cpu=02\n",
        1000000100,
        0,
        What::Sent { cpu: 2 },
    ),
    (
        b"x-9 [0] d 1.00000001: sched_stat_runtime: comm=gr_0 pid=8 runtime=2499546 [ns]\n",
        1000000010,
        0,
        What::Ran { nanos: 2499546 },
    ),
];

#[test]
fn each_event_tells_its_fact(rt: HostRuntime) -> Result<(), Fail> {
    for (line, at, task, what) in &EVENTS {
        assert!(rt; tells(rt.alloc(), line, *at, *task, *what)?, "{at}");
    }
    assert!(rt; timers_are_told(rt.alloc())?);
    Ok(())
}

/// Whether a timer that is armed, cancelled and fired after a wake is told so, by a clock that is 1000 ns off.
fn timers_are_told(alloc: Global) -> Result<bool, AllocError> {
    let text = joined(alloc, [WAKE, ARM, CANCEL, FIRE].as_slice())?;
    let told = read(alloc, text.as_slice())?;
    let wanted = [
        Fact {
            line: 1,
            at: 1020402803000,
            task: 0,
            what: What::Wakes { cpu: 2 },
        },
        Fact {
            line: 2,
            at: 1020411178000,
            task: 0,
            what: What::Armed {
                expires: 1020411632855,
            },
        },
        Fact {
            line: 3,
            at: 1020411200000,
            task: 0,
            what: What::Cancelled,
        },
        Fact {
            line: 4,
            at: 1020411633000,
            task: 0,
            what: What::Fired { now: 1020411634000 },
        },
    ];
    Ok(are_told(&told, wanted.as_slice()))
}

/// Whether a switch away from a task in this state is told as this stop.
fn tells_stop(alloc: Global, state: &[u8], stop: Stop) -> Result<bool, AllocError> {
    let text = joined(
        alloc,
        [
            b"a-1 [3] 1.000001: sched_switch: prev_comm=b prev_pid=77 prev_prio=-1 prev_state=".as_slice(),
            state,
            b" ==> next_comm=x next_pid=1 next_prio=120\n".as_slice(),
        ]
        .as_slice(),
    )?;
    let what = What::Stops {
        cpu: 3,
        state: stop,
    };
    tells(alloc, text.as_slice(), 1000001000, 1, what)
}

static STATES: [(&[u8], Stop); 5] = [
    (b"R+", Stop::Ready),
    (b"P ", Stop::Ready),
    (b"D ", Stop::Blocks),
    (b"X ", Stop::Ends),
    (b"Z|", Stop::Ends),
];

#[test]
fn a_state_is_told_by_its_first_letter(rt: HostRuntime) -> Result<(), Fail> {
    for (state, stop) in &STATES {
        assert!(rt; tells_stop(rt.alloc(), state, *stop)?, "{state:?}");
    }
    Ok(())
}

#[test]
fn other_priorities_and_states_are_no_facts(rt: HostRuntime) -> Result<(), Fail> {
    let alloc = rt.alloc();
    let none = b"a-1 [3] 1.000001: sched_wakeup: comm=gr_0 pid=8 prio=120 target_cpu=003\n";
    assert_eq!(rt; numbers_of(alloc, none)?, Some((0, 4)));
    assert!(rt;
        tells(
            alloc,
            b"a-1 [3] 1.000001: sched_wakeup: comm=gr_0 pid=8 prio=-01 target_cpu=003\n",
            1000001000,
            0,
            What::Wakes { cpu: 3 }
        )?
    );
    Ok(())
}

#[test]
fn a_timer_is_that_of_the_task_that_armed_it_last(rt: HostRuntime) -> Result<(), Fail> {
    let alloc = rt.alloc();
    let text = joined(
        alloc,
        [
            b"a-77 [0] 1.000001: hrtimer_start: hrtimer=1 function=inactive_task_timer expires=3\n".as_slice(),
            b"a-5 [0] 1.000001: hrtimer_start: function=hrtimer_wakeup\n".as_slice(),
            b"a-6 [0] 1.000001: hrtimer_start: hrtimer=1 function=inactive_task_timer expires=3\n".as_slice(),
            b"a-5 [0] 1.000001: hrtimer_cancel: hrtimer=1\n".as_slice(),
        ]
        .as_slice(),
    )?;
    assert_eq!(rt; numbers_of(alloc, text.as_slice())?, Some((1, 1)));
    Ok(())
}
