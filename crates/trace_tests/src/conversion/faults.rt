//! Traces that are refused.

use crate::conversion::fixtures::{options, read_text};
use convert::serve_events;
use std::alloc::Global;
use std::io;
use text_bytes::Source;
use trace_file::{Files, Target};

/// Whether a trace is refused with this status and this line, where there is a file at one path already.
fn refuses(alloc: Global, tasks: &[&str], text: &str, status: u8, line: &str) -> bool {
    let files = Files {
        source: Source {
            open: |_path: &str| Ok(0usize),
            read: |at: &mut usize, room: &mut [u8]| read_text(text.as_bytes(), at, room),
        },
        target: Target {
            exists: |path: &str| path == "out.cpu1.grub",
            make: |_path: &str, _bytes: &[u8]| Err(io::Error::from(io::ErrorKind::Other)),
            remove: |_path: &str| {},
        },
    };
    let Some(options) = options(alloc, tasks) else {
        return false;
    };
    let mut faults: Vec<u8> = Vec::new(alloc);
    let given = serve_events(alloc, &files, "t", "out", &options, &mut faults);
    given == status && faults.as_slice() == line.as_bytes()
}

/// The same of a trace in three pieces.
fn refuses_pieces(
    alloc: Global,
    tasks: &[&str],
    (head, text, more): (&str, &str, &str),
    status: u8,
    line: &str,
) -> bool {
    match format!(in alloc; "{head}{text}{more}") {
        Ok(trace) => refuses(alloc, tasks, trace.as_str(), status, line),
        Err(_) => false,
    }
}

const WAKE: &str = " x-1 [000] d. 1.000000: sched_wakeup: comm=a pid=7 prio=-1 target_cpu=000\n";

const SLEEP: &str =
    " a-7 [001] d. 3000.000000: sched_switch: prev_comm=a prev_pid=7 prev_prio=-1 prev_state=S ==> next_comm=x next_pid=1 next_prio=120\n";

const RUN: &str =
    " a-7 [000] d. 1.5: x\n a-7 [000] d. 1.500000: sched_stat_runtime: comm=a pid=7 runtime=16777217000 [ns]\n";

const FIRES: &str =
    " a-7 [000] d. 1.500000: hrtimer_expire_entry: hrtimer=1 function=inactive_task_timer now=1\n";

const LOST: &str = "CPU:0 [LOST 3 EVENTS]\n";

const OTHER: &str = " x-1 [000] d. 2.000000: sched_wakeup: comm=b c pid=8 prio=-1 target_cpu=000\n";

const CUT: &str = " x-1 [000] d. 1.000000: sched_wakeup: comm=a pid=7 prio=-1\n";

const TWO: &str = " a-7 [001] d. 1.000100: sched_stat_runtime: comm=a pid=7 runtime=5 [ns]\n";

const ALL: [&str; 2] = ["a=1000:10000", "q=1000:10000"];

const FIRST: [&str; 1] = ["a=1000:10000"];

/// The tasks that are given, a trace in three pieces, and the status and the line of its fault.
static FAULTS: [(&[&str], (&str, &str, &str), u8, &str); 11] = [
    (&ALL, ("", WAKE, ""), 1, "grubtrace: t: 49 NoSuchTask q\n"),
    (
        &ALL,
        ("# #P:1\n", SLEEP, CUT),
        1,
        "grubtrace: t:2: 54 TooLong\n",
    ),
    (&ALL, (WAKE, SLEEP, CUT), 1, "grubtrace: t:2: 54 TooLong\n"),
    (&ALL, (WAKE, RUN, OTHER), 1, "grubtrace: t:3: 54 TooLong\n"),
    (
        &ALL,
        (WAKE, CUT, SLEEP),
        1,
        "grubtrace: t:2: 55 BadTraceLine\n",
    ),
    (
        &FIRST,
        (WAKE, FIRES, ""),
        1,
        "grubtrace: t:2: 51 WrongClock\n",
    ),
    (
        &ALL,
        (WAKE, FIRES, CUT),
        1,
        "grubtrace: t:3: 55 BadTraceLine\n",
    ),
    (
        &ALL,
        (WAKE, LOST, CUT),
        1,
        "grubtrace: t:2: 52 LostEvents\n",
    ),
    (
        &ALL,
        (WAKE, OTHER, RUN),
        1,
        "grubtrace: t:2: 50 UnknownTask b c (pid 8)\n",
    ),
    (
        &FIRST,
        (WAKE, TWO, ""),
        1,
        "grubtrace: out.cpu1.grub: 56 FileExists\n",
    ),
    (&FIRST, (WAKE, "", ""), 3, "grubtrace: 45 WriteFault\n"),
];

#[test]
fn faults(rt: HostRuntime) {
    for (tasks, trace, status, line) in &FAULTS {
        let is_refused = refuses_pieces(rt.alloc(), tasks, *trace, *status, line);
        assert!(rt; is_refused, "{line}");
    }
}
