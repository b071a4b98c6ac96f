//! Lines that are wrong, and texts that are cut.

use crate::lines::fixtures::{numbers_of, read};
use std::test::Fail;

/// Texts, and the line at which each halts with the number of its fault; zeros where each line is taken.
static FAULTS: [(&[u8], (u64, u64)); 29] = [
    (b"", (0, 0)),
    (b"\n\n", (0, 0)),
    (b"x", (1, 55)),
    (b"\nCPU:2 [LOST EVENTS]", (2, 52)),
    (b"CPU:2 [LOST 12 EVENTS]\r\n", (1, 52)),
    (
        b"# entries-in-buffer/entries-written: 9/10   #P:4\n",
        (1, 52),
    ),
    (
        b"# entries-in-buffer/entries-written: 10/10   #P:4\n",
        (0, 0),
    ),
    (b"a-1 [8191] 1.000001: hrtimer_cancel: hrtimer=1\n", (0, 0)),
    (b"a-1 [8192] 1.000001: hrtimer_cancel: hrtimer=1\n", (1, 54)),
    (b"a-1 [0] 1.000001: hrtimer_cancel: hrtimer=xyz\n", (1, 55)),
    (
        b"a-1 [3] 1.000001: hrtimer_expire_entry: hrtimer=1 function=inactive_task_timer now=1001001000\n",
        (0, 0),
    ),
    (
        b"a-1 [3] 1.000001: hrtimer_expire_entry: hrtimer=1 function=inactive_task_timer now=1001001001\n",
        (1, 51),
    ),
    (
        b"a-1 [3] 1.000001: hrtimer_expire_entry: hrtimer=1 function=inactive_task_timer now=9\na-1 [3] 1.000001: hrtimer_expire_entry: hrtimer=1 function=inactive_task_timer now=1000001000\n",
        (0, 0),
    ),
    (
        b"a-1 [3] 1.000001: hrtimer_expire_entry: hrtimer=1 function=inactive_task_timer now=1000001000\na-1 [3] 1.000001: hrtimer_expire_entry: hrtimer=1 function=inactive_task_timer now=9\n",
        (0, 0),
    ),
    (
        b"\na-1 [3] 1.000001: hrtimer_expire_entry: hrtimer=1 function=inactive_task_timer now=9\na-1 [3] 1.000001: hrtimer_expire_entry: hrtimer=1 function=inactive_task_timer now=5\n",
        (2, 51),
    ),
    (
        b"a-1 [3] 1.000001: hrtimer_expire_entry: hrtimer=1 function=dl_task_timer now=1\n",
        (0, 0),
    ),
    (
        b"a-1 [0] 1.000001: sched_switch: prev_comm=b prev_pid=1 prev_prio=-1 prev_state=1 ==> next_comm=c next_pid=2 next_prio=120\n",
        (1, 55),
    ),
    (
        b"a-1 [0] 1.000001: sched_switch: prev_comm=b prev_pid=1 prev_prio=-1 prev_state=D+ ==> next_comm=c next_pid=2 next_prio=120\n",
        (0, 0),
    ),
    (
        b"a-1 [0] 1.000001: sched_switch: prev_comm=b prev_pid=1 prev_prio=-1 prev_state=S ==> next_comm=c\n",
        (1, 55),
    ),
    (
        b"a-1 [0] d..2. 1.000001: mig: (migrate_task_rq_dl+0x0/0x1) pid=1 st=0x200\n",
        (0, 0),
    ),
    (
        b"a-1 [0] d..2. 1.000001: mig: (migrate_task_rq_dl+0x0/0x1) pid=1\n",
        (1, 55),
    ),
    (
        b"a-1 [0] d..2. 1.000001: mig: (migrate_task_rq_dl+0x0/0x1) st=1 pid=1\n",
        (1, 55),
    ),
    (
        b"a-1 [0] d..2. 1.000001: ina: (x) timer=18446744073709551615\n",
        (0, 0),
    ),
    (
        b"a-1 [0] d..2. 1.000001: ina: (x) timer=18446744073709551616\n",
        (1, 55),
    ),
    (b"# grub: notes 2 kernel=6.12.1\n", (1, 55)),
    (b"# grub: notes 1 kernel=6.12.1 domain=0-3,x\n", (1, 55)),
    (b"# grub: task pid=5 at=1.000001 cpu=0 policy=0\n", (1, 55)),
    (
        b"# grub: task gr_0 pid=5\n# grub: probes\n# grub: lost 0 missed 0\n",
        (0, 0),
    ),
    (
        b"# grub: task pid=5 at=start cpu=9000 policy=0 comm=a b\n",
        (1, 54),
    ),
];

#[test]
fn each_fault_has_its_line(rt: HostRuntime) -> Result<(), Fail> {
    for (text, fault) in FAULTS.iter() {
        let (_, halt) = read(rt.alloc(), text, 7)?;
        assert!(rt; numbers_of(halt).0 == fault.0);
        assert!(rt; numbers_of(halt).1 == fault.1);
    }
    Ok(())
}
