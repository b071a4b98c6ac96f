//! What lines say.

use crate::lines::fixtures::read;
use std::test::Fail;
use trace_data::{Probe, RecordLine, Said};
use trace_lines::told_by;

static RECORD: &[u8] =
    b"# grub: notes 1 kernel=6.12.111+deb12-cloud-amd64 domain=0-3,5 max-bw=996147 total-bw=209712\n# grub: cpu 0 this=52428 running=52428 extra=943719\n# grub: task pid=831 at=start cpu=2 runtime=5000000 deadline=50000000 period=50000000 flags=0x2 comm=gr 0\n# tracer: nop\n            gr_2-205     [000] ...1.    28.670144: sys_sched_setattr(pid: 0, uattr: 7fff3a1091b0, flags: 0)\n            gr_2-205     [000] ...1.    28.670153: sys_sched_setattr -> 0x0\n            init-1       [000] d..2.    28.670154: sched_stat_runtime: comm=init pid=1 runtime=5140 [ns] vruntime=4476780373 [ns]\n            init-1       [000] d..2.    28.670155: sched_wakeup: comm=a b pid=7 prio=-1 target_cpu=001\n           dlgen-597     [002] d.h1.    28.670156789: hst: (hrtimer_start_range_ns+0x4/0x440) timer=1 tim=82754158097 mode=8 fn=dl_task_timer+0x0/0x9e0\n";

static ENQ: &[u8] =
    b"            gr_0-228     [001] d..2.    39.608080: enq: (enqueue_task_dl+0x0/0xa60) pid=228 cpu=1 fl=14 clk=39564746879 q=-7 d=9 thr=0 yld=1 non=0 rt=12000000 dl=40000000 pe=40000000 sf=2 oq=1 np=-1 se=1 ps=0x2 prt=12000000 pdl=40000000 ppe=40000000 th=3 ru=2 ex=917504";

#[test]
fn lines_are_the_same_wherever_the_text_is_cut(rt: HostRuntime) -> Result<(), Fail> {
    for size in 1..40 {
        let (counted, halt) = read(rt.alloc(), RECORD, size)?;
        assert!(rt; halt.is_none());
        assert!(rt; counted.notes == 3);
        assert!(rt; counted.events == 5);
        assert!(rt; counted.quiet == 1);
        assert!(rt; counted.last == 9);
    }
    Ok(())
}

#[test]
fn a_line_of_a_probe_shows_its_fields(rt: HostRuntime) {
    let RecordLine::Event {
        at,
        grain,
        cpu,
        pid,
        said: Said::Probe(Probe::Enqueued(shown)),
    } = told_by(ENQ).line
    else {
        assert!(rt; false);
        return;
    };
    assert!(rt; at == 39608080000);
    assert!(rt; grain == 1000);
    assert!(rt; cpu == 1);
    assert!(rt; pid == 228);
    assert!(rt; shown.budget.runtime == -7);
    assert!(rt; shown.budget.is_yielded);
    assert!(rt; shown.parameters.dl_period == 40000000);
    assert!(rt; shown.served_by == 2);
    assert!(rt; shown.sums.running_bw == 2);
}
