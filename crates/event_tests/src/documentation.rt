//! The kernel documentation's example of GRUB: two tasks of half a processor each, of which one blocks.

/// The event file.
pub const FILE: &str = "\
grub 1
queue 1048576 0
task T1 4 8
task T2 4 8
at 0 join T1
at 0 join T2
at 0 run T1 2
at 2 block T1
at 2 run T2 2
at 4 run T2 4
at 8 wake T1
at 8 read
";

/// The report of a run by threads.
pub const REPORT: &str = "\
runqueue 0
at 0 join T1: joined q=4 d=8
at 0 join T2: joined q=4 d=8
at 0 run T1 2: charged dq=2 k=0 q=2 d=8
at 2 block T1: waiting ticket=1 z=4
at 2 run T2 2: charged dq=2 k=0 q=2 d=8
at 4 timer T1 1: retired
at 4 run T2 4: charged dq=2 k=1 q=4 d=16
at 8 wake T1: woken q=4 d=16
at 8 read: running=1048576 this=1048576
close running=1048576 this=1048576
";

/// The time line.
pub const LINES: &str = "\
at 0 on 0 join T1: joined q=4 d=8
at 0 on 0 join T2: joined q=4 d=8
at 0 on 0 run T1 2: charged dq=2 k=0 q=2 d=8
at 2 on 0 block T1: waiting ticket=1 z=4
at 2 on 0 run T2 2: charged dq=2 k=0 q=2 d=8
at 4 on 0 timer T1 1: retired
at 4 on 0 run T2 4: charged dq=2 k=1 q=4 d=16
at 8 on 0 wake T1: woken q=4 d=16
at 8 on 0 read: running=1048576 this=1048576
close 0 running=1048576 this=1048576
";

/// The steps of the time line.
pub const STEPS: &str = "\
moment\trunqueue\task\ttask\targ\tanswer\tdq\tk\tq\td\tz\trunning\tthis
0\t0\tjoin\tT1\t\tjoined\t\t\t4\t8\t\t524288\t524288
0\t0\tjoin\tT2\t\tjoined\t\t\t4\t8\t\t1048576\t1048576
0\t0\trun\tT1\t2\tcharged\t2\t0\t2\t8\t\t1048576\t1048576
2\t0\tblock\tT1\t\twaiting\t\t\t\t\t4\t1048576\t1048576
2\t0\trun\tT2\t2\tcharged\t2\t0\t2\t8\t\t1048576\t1048576
4\t0\ttimer\tT1\t1\tretired\t\t\t\t\t\t524288\t1048576
4\t0\trun\tT2\t4\tcharged\t2\t1\t4\t16\t\t524288\t1048576
8\t0\twake\tT1\t\twoken\t\t\t4\t16\t\t1048576\t1048576
8\t0\tread\t\t\tread\t\t\t\t\t\t1048576\t1048576
";

/// The summary of the time line.
pub const SUMMARY: &str = "\
task runtime period  util executed charged reclaimed recharges joins wakes kept moves waits sleeps retired least late worst refused
T1         4      8 50.00        2       2         0         0     1     1    0     0     1      0       1     2    0     0       0
T2         4      8 50.00        6       4         2         1     1     0    0     0     0      0       0     2    0     0       0

runqueue    umax uextra span changes running running-max   this this-max
       0 1048576      0    8       4   75.00      100.00 100.00   100.00
";
