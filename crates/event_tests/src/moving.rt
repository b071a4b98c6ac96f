//! A task that moves from one runqueue to another while it waits for its 0-lag time.

/// The event file of the runqueue that it leaves.
pub const FROM: &str = "\
grub 1
queue 1048576 0
task T 4 8
at 0 join T
at 0 run T 2
at 2 block T
at 9 read
";

/// The event file of the runqueue to which it moves.
pub const TO: &str = "\
grub 1
queue 1048576 0
at 3 wake T
at 3 read
";

/// The time line.
pub const LINES: &str = "\
at 0 on 0 join T: joined q=4 d=8
at 0 on 0 run T 2: charged dq=2 k=0 q=2 d=8
at 2 on 0 block T: waiting ticket=1 z=4
at 3 on 1 wake T: elsewhere 0
at 3 on 1 leave T: left 0
at 3 on 1 join T: joined q=2 d=8
at 3 on 1 read: running=524288 this=524288
at 9 on 0 read: running=0 this=0
close 0 running=0 this=0
close 1 running=524288 this=524288
";

/// The steps of the time line.
pub const STEPS: &str = "\
moment\trunqueue\task\ttask\targ\tanswer\tdq\tk\tq\td\tz\trunning\tthis
0\t0\tjoin\tT\t\tjoined\t\t\t4\t8\t\t524288\t524288
0\t0\trun\tT\t2\tcharged\t2\t0\t2\t8\t\t524288\t524288
2\t0\tblock\tT\t\twaiting\t\t\t\t\t4\t524288\t524288
3\t0\twake\tT\t\telsewhere\t\t\t\t\t\t524288\t524288
3\t0\tleave\tT\t\tleft\t\t\t\t\t\t0\t0
3\t1\tjoin\tT\t\tjoined\t\t\t2\t8\t\t524288\t524288
3\t1\tread\t\t\tread\t\t\t\t\t\t524288\t524288
9\t0\tread\t\t\tread\t\t\t\t\t\t0\t0
";

/// The summary of the time line.
pub const SUMMARY: &str = "\
task runtime period  util executed charged reclaimed recharges joins wakes kept moves waits sleeps retired least late worst refused
T          4      8 50.00        2       2         0         0     2     0    1     1     1      0       0     2    0     0       0

runqueue    umax uextra span changes running running-max  this this-max
       0 1048576      0    9       2   16.66       50.00 16.66    50.00
       1 1048576      0    9       1   33.33       50.00 33.33    50.00
";
