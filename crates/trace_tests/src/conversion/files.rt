//! Traces and the event files that they tell.

use crate::conversion::fixtures::{options, read_text};
use convert::{ConvertOptions, event_files, read_facts};
use convert_facts::Facts;
use std::alloc::Global;
use text_bytes::Source;

/// What a text tells of given tasks; None where it has a fault, or memory is refused.
fn facts_of(alloc: Global, options: &ConvertOptions<'_>, text: &str) -> Option<Facts> {
    let source = Source {
        open: |_path: &str| Ok(0usize),
        read: |at: &mut usize, room: &mut [u8]| read_text(text.as_bytes(), at, room),
    };
    read_facts(alloc, &source, "t", options).ok()
}

/// Whether these are the texts of these files.
fn are_texts(files: &[Vec<u8>], texts: &[&str]) -> bool {
    for (file, text) in files.iter().zip(texts) {
        if file.as_slice() != text.as_bytes() {
            return false;
        }
    }
    files.len() == texts.len()
}

/// Whether facts tell these event files.
fn tell_files(alloc: Global, options: &ConvertOptions<'_>, facts: &Facts, files: &[&str]) -> bool {
    match event_files(alloc, options, facts) {
        Ok(made) => are_texts(&made, files),
        Err(_) => false,
    }
}

/// Whether a trace tells these event files.
fn tells(alloc: Global, tasks: &[&str], text: &str, files: &[&str]) -> bool {
    let Some(options) = options(alloc, tasks) else {
        return false;
    };
    match facts_of(alloc, &options, text) {
        Some(facts) => tell_files(alloc, &options, &facts, files),
        None => false,
    }
}

const MOVES: &str = "# entries-in-buffer/entries-written: 9/9   #P:2
 x-1 [000] d. 100.000000123: sched_wakeup: comm=a pid=7 prio=-1 target_cpu=000
 x-1 [000] d. 100.000001999: sched_migrate_task: comm=a pid=7 prio=-1 orig_cpu=0 dest_cpu=1
 x-1 [000] d. 100.000500000: sched_stat_runtime: comm=a pid=7 runtime=400600 [ns]
 a-7 [001] d. 100.000600000: sched_stat_runtime: comm=a pid=7 runtime=600 [ns]
 a-7 [001] d. 100.000600100: sched_stat_runtime: comm=a pid=7 runtime=1 [ns]
 a-7 [001] d. 100.000700000: sched_switch: prev_comm=a prev_pid=7 prev_prio=-1 prev_state=R+ ==> next_comm=b next_pid=1 next_prio=120
 x-1 [001] d. 100.000700500: sched_migrate_task: comm=a pid=7 prio=-1 orig_cpu=1 dest_cpu=0
 a-7 [000] d. 100.000800000: sched_stat_runtime: comm=a pid=7 runtime=99 [ns]
 a-7 [000] d. 100.000900000: sched_switch: prev_comm=a prev_pid=7 prev_prio=-1 prev_state=S ==> next_comm=b next_pid=1 next_prio=120
";

const MOVES_FILES: [&str; 2] = [
    "grub 1
queue 996147 891291
task fair0 50000 1000000
at 0 join fair0
at 2701 wake a
at 2900 block a
",
    "grub 1
queue 996147 891291
task fair1 50000 1000000
task a 1000 10000
at 0 join fair1
at 2000 join a
at 2500 run a 400
at 2600 run a 1
at 2700 block a
",
];

/// A wake that is migrated before the task ran, runs with rests below a microsecond, and a ready task that is moved to
/// the file before its own within one microsecond.
#[test]
fn moves(rt: HostRuntime) {
    assert!(rt; tells(rt.alloc(), &["a=1000:10000"], MOVES, &MOVES_FILES));
}

const OPENINGS: &str = " x-1 [000] d. 5.000000: sched_stat_runtime: comm=w pid=7 runtime=5000 [ns]
 w-8 [001] d. 5.000100: sched_switch: prev_comm=w prev_pid=8 prev_prio=-1 prev_state=S ==> next_comm=x next_pid=1 next_prio=120
 x-9 [000] d. 5.000200: sched_switch: prev_comm=my task prev_pid=9 prev_prio=-1 prev_state=X ==> next_comm=x next_pid=1 next_prio=120
 x-1 [000] d. 5.000300: sched_wakeup_new: comm=w pid=7 prio=-1 target_cpu=001
 x-1 [000] d. 5.000310: sched_wakeup: comm=w pid=7 prio=-1 target_cpu=000
 w-7 [001] d. 5.001300: sched_stat_runtime: comm=w pid=7 runtime=1000 [ns]
 w-7 [001] d. 5.001300: sched_switch: prev_comm=w prev_pid=7 prev_prio=-1 prev_state=Z ==> next_comm=x next_pid=1 next_prio=120
 x-1 [000] d. 5.001400: sched_migrate_task: comm=w pid=8 prio=-1 orig_cpu=1 dest_cpu=0
 x-1 [000] d. 5.001400: sched_wakeup: comm=w pid=8 prio=-1 target_cpu=000
";

const OPENINGS_FILES: [&str; 2] = [
    "grub 1
queue 996147 786434
task fair0 50000 1000000
at 0 join fair0
at 3100 wake pid8
",
    "grub 1
queue 996147 786434
task fair1 50000 1000000
task pid8 1000 10000
task pid7 1000 10000
at 0 join fair1
at 0 join pid8
at 0 block pid8
at 2000 join pid7
at 3000 run pid7 1
at 3000 block pid7
",
];

/// A task that is first seen as it blocks, one that ends, one that is first seen as it ends, two tasks of one comm, a comm
/// that is no name, a second wake, the move of a task that sleeps, and a wake before the first switch.
#[test]
fn openings(rt: HostRuntime) {
    assert!(rt;
        tells(
            rt.alloc(),
            &["7=1000:10000", "8=1000:10000", "my task=1000:10000"],
            OPENINGS,
            &OPENINGS_FILES
        )
    );
}

const CROSSING: &str = "#           TASK-PID     CPU#  |||||  TIMESTAMP  FUNCTION  #P:2
 x-1 [000] d. 1.000000: sched_wakeup: comm=a pid=7 prio=-1 target_cpu=000
 x-1 [000] d. 1.000100: sched_wakeup: comm=b pid=8 prio=-1 target_cpu=001
 a-7 [000] d. 1.001000: sched_stat_runtime: comm=a pid=7 runtime=1000000 [ns]
 b-8 [001] d. 1.001100: sched_stat_runtime: comm=b pid=8 runtime=1000000 [ns]
 x-1 [000] d. 1.002000100: sched_migrate_task: comm=a pid=7 prio=-1 orig_cpu=0 dest_cpu=1
 x-1 [000] d. 1.002000900: sched_migrate_task: comm=b pid=8 prio=-1 orig_cpu=1 dest_cpu=0
 a-7 [001] d. 1.003000: sched_switch: prev_comm=a prev_pid=7 prev_prio=-1 prev_state=S ==> next_comm=x next_pid=1 next_prio=120
 b-8 [000] d. 1.003000: sched_switch: prev_comm=b prev_pid=8 prev_prio=-1 prev_state=S ==> next_comm=x next_pid=1 next_prio=120
";

const CROSSING_FILES: [&str; 2] = [
    "grub 1
queue 996147 838862
task fair0 50000 1000000
task a 1000 10000
at 0 join fair0
at 2000 join a
at 3000 run a 1000
at 4000 block a
at 4001 wake b
at 5000 block b
",
    "grub 1
queue 996147 838862
task fair1 50000 1000000
task b 1000 10000
at 0 join fair1
at 2100 join b
at 3100 run b 1000
at 4000 wake a
at 4000 block b
at 5000 block a
",
];

/// Two ready tasks that cross within one microsecond: the wake in the file before its own stands a microsecond later.
#[test]
fn two_tasks_cross(rt: HostRuntime) {
    assert!(rt;
        tells(
            rt.alloc(),
            &["a=1000:10000", "b=1000:10000"],
            CROSSING,
            &CROSSING_FILES
        )
    );
}

const MOVED_TWICE: &str = "#           TASK-PID     CPU#  |||||  TIMESTAMP  FUNCTION  #P:3
 x-1 [000] d. 1.000000: sched_wakeup: comm=a pid=7 prio=-1 target_cpu=000
 a-7 [000] d. 1.001000: sched_stat_runtime: comm=a pid=7 runtime=1000000 [ns]
 a-7 [000] d. 1.001500: sched_switch: prev_comm=a prev_pid=7 prev_prio=-1 prev_state=R ==> next_comm=x next_pid=1 next_prio=120
 x-1 [000] d. 1.002000: sched_migrate_task: comm=a pid=7 prio=-1 orig_cpu=0 dest_cpu=1
 x-1 [001] d. 1.002100: sched_migrate_task: comm=a pid=7 prio=-1 orig_cpu=1 dest_cpu=2
 a-7 [002] d. 1.002600: sched_stat_runtime: comm=a pid=7 runtime=500000 [ns]
 a-7 [002] d. 1.003000: sched_switch: prev_comm=a prev_pid=7 prev_prio=-1 prev_state=S ==> next_comm=x next_pid=1 next_prio=120
";

const MOVED_TWICE_FILES: [&str; 3] = [
    "grub 1
queue 996147 908767
task fair0 50000 1000000
task a 1000 10000
at 0 join fair0
at 2000 join a
at 3000 run a 1000
at 4000 block a
",
    "grub 1
queue 996147 908767
task fair1 50000 1000000
at 0 join fair1
at 4000 wake a
at 4100 block a
",
    "grub 1
queue 996147 908767
task fair2 50000 1000000
at 0 join fair2
at 4100 wake a
at 4600 run a 500
at 5000 block a
",
];

/// A ready task that is moved twice before it runs again: each move takes it from the runqueue where it was.
#[test]
fn a_task_is_moved_twice(rt: HostRuntime) {
    assert!(rt;
        tells(
            rt.alloc(),
            &["a=1000:10000"],
            MOVED_TWICE,
            &MOVED_TWICE_FILES
        )
    );
}

const NOTED: &str = "# grub: notes 1 kernel=6.1.0 domain=0-0 max-bw=500000 total-bw=0
# grub: task pid=7 at=start cpu=0 runtime=1000000 deadline=10000000 period=10000000 flags=0x2 comm=a
# grub: task pid=8 at=start cpu=0 runtime=3000000 deadline=30000000 period=30000000 flags=0x2 comm=b
 x-1 [000] d. 1.000000: sched_wakeup: comm=a pid=7 prio=-1 target_cpu=000
 x-1 [000] d. 1.000100: sched_wakeup: comm=b pid=8 prio=-1 target_cpu=000
";

const NOTED_FILES: [&str; 1] = [
    "grub 1
queue 500000 185428
task a 2000 10000
task b 3000 30000
at 2000 join a
at 2100 join b
",
];

/// Notes of a kernel without servers of fair tasks, of its limit and of two tasks, one of which an option gives too.
#[test]
fn notes_stand_below_options(rt: HostRuntime) {
    assert!(rt; tells(rt.alloc(), &["a=2000:10000"], NOTED, &NOTED_FILES));
}
