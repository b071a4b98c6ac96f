//! The tasks that a trace shows.

use crate::conversion::fixtures::read_text;
use convert::serve_tasks;
use std::alloc::Global;
use text_bytes::Source;

const TASK: &str =
    " x-1 [000] d. 1.000000: sched_wakeup: comm=b c pid=8 prio=-1 target_cpu=003\n x-8 [001] d. 1.000100: sched_switch: prev_comm=b c prev_pid=8 prev_prio=-1 prev_state=S ==> next_comm=x next_pid=1 next_prio=120\n";

/// Whether a trace shows these tasks.
fn shows(alloc: Global, text: &str, tasks: &str) -> bool {
    let source = Source {
        open: |_path: &str| Ok(0usize),
        read: |at: &mut usize, room: &mut [u8]| read_text(text.as_bytes(), at, room),
    };
    let mut out: Vec<u8> = Vec::new(alloc);
    let mut faults: Vec<u8> = Vec::new(alloc);
    let status = serve_tasks(alloc, &source, "t", &mut out, &mut faults);
    status == 0 && out.as_slice() == tasks.as_bytes()
}

/// Notes of the task, and the end of its line: whole and other microseconds, and a deadline before the period.
static NOTES: [(&str, &str); 3] = [
    ("", "line=1"),
    (
        "# grub: task pid=8 at=start cpu=0 runtime=5000000 deadline=50000000 period=50000000 flags=0x2 comm=b\n",
        "line=2 reserves=5000:50000",
    ),
    (
        "# grub: task pid=8 at=start cpu=0 runtime=1024 deadline=20000000 period=33333330 flags=0x5 comm=b c\n",
        "line=2 reserves=1.024:33333.330:20000,norec",
    ),
];

/// Whether a trace that begins with a note shows the task with this end of its line.
fn shows_with(alloc: Global, note: &str, end: &str) -> bool {
    let text = format!(in alloc; "{note}{TASK}");
    let tasks = format!(in alloc; "task b c pid=8 wakes=1 blocks=1 cpus=1,3 {end}\n");
    match (text, tasks) {
        (Ok(text), Ok(tasks)) => shows(alloc, text.as_str(), tasks.as_str()),
        _ => false,
    }
}

#[test]
fn tasks(rt: HostRuntime) {
    for (note, end) in &NOTES {
        assert!(rt; shows_with(rt.alloc(), note, end), "{end}");
    }
}
