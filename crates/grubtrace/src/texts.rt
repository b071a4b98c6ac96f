//! The texts of the command line's help.

/// What `--version` prints after the program's name.
pub const VERSION: &str = "0.3.0";

/// What stands below the help of the program.
pub const AFTER_HELP: &str = "\
A TRACE is the text of a kernel's trace of the scheduler's and the timers' events, as
scripts/record.sh makes it: the file `trace` of tracefs, or what perf script prints.

    grubtrace tasks trace.txt
    grubtrace check trace.txt
    grubtrace size --task dsp=5333 trace.txt
    grubtrace events --out run trace.txt

The first tells which tasks there are. The second says whether the kernel charged and timed
them as its rules say. The third says which reservations tasks of any class need. The fourth
writes run.cpu0.grub and so on, which grubrun plays.

Status: 0 done, and the kernel agrees, 1 the trace is at fault or shows nothing to compare,
or a file is there already, 2 the command line is wrong, 3 a file cannot be read or written,
or memory or the output was refused, 4 the kernel differs, 5 the kernel agrees and breaks a
law by no known fault.";

/// What stands below the help of `tasks`.
pub const AFTER_TASKS: &str = "\
A line tells of one task, in the order in which they are seen:

    task gr_0 pid=831 wakes=58 blocks=57 cpus=0,2 line=341 reserves=5000:50000

What it reserves stands there where a note of the trace says it, in the words of --task:
RUNTIME:PERIOD[:DEADLINE] in microseconds, and ,norec of a task without SCHED_FLAG_RECLAIM.";

/// What stands below the help of `events`.
pub const AFTER_EVENTS: &str = "\
A record of scripts/record.sh needs no option: its notes say what tasks reserve, and what the
kernel does. An option stands above the notes. A task that wakes and has no reservation by
either is a fault (50, status 1). A file that is there already is never written over (status 1).

    grubtrace events --out run trace.txt
    grubtrace events --task gr_0=5000:50000 --task gr_1=10000:40000 --out run trace.txt
    grubrun --view summary $(ls -v run.cpu*.grub)";

/// What stands below the help of `check`.
pub const AFTER_CHECK: &str = "\
A record of scripts/record.sh needs no option: its notes say what the kernel knew. Where it
has lines of probes, each value that they show is compared with the rules, bit for bit; else,
and with --timers, the moments for which the kernel armed its timers. An option stands above
the notes. The verdict ends in `agrees` (status 0), or in what is needed to find why the
kernel `differs` (status 4). Below it stand laws that hold however a scheduler is written; one
that is broken by no known fault of the kernel has status 5. A record of which not one value,
block or timer could be compared is a fault that says why (61, status 1). docs/KERNEL.md says
what is compared and what is not.

    grubtrace check trace.txt
    grubtrace check --task gr_0=5000:50000 --task gr_1=10000:40000 trace.txt
    grubtrace check --picture run.svg --from 1927.5 --to 1927.8 trace.txt";

/// What stands below the help of `size`.
pub const AFTER_SIZE: &str = "\
A job begins as its task wakes and ends as it blocks. For each task the least runtime is
told with which no job of the trace may be late, whatever else runs, as long as each
budget is had by its deadline; what fewer late jobs and other periods cost; and whether
the kernel admits the sum.

    grubtrace size trace.txt
    grubtrace size --task dsp=5333 --task logger=4000:100000 trace.txt
    grubtrace size --task dsp=5333 --picture dsp.svg trace.txt

Record with real-time priority, as by chrt -f 50 PROGRAM: a task that is late hides its
next wakes.";
