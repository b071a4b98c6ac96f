//! The texts that the command line can ask for.

/// What `--version` prints.
pub const VERSION: &str = "grubrun 0.3.0\n";

/// What `--help` prints.
pub const HELP: &str = "\
Plays event files, one for each runqueue, by GRUB: the rule by which SCHED_DEADLINE lets
running tasks use bandwidth that others leave (greedy reclamation of unused bandwidth).
It prints the answer to each line: budgets, deadlines, 0-lag times and the runqueue's sums;
or, with --view, one time line of all files, its steps, a summary or a picture.

Event files are written by hand, or by `grubtrace events` from a kernel's trace.

Usage: grubrun [OPTIONS] <FILE>...

Arguments:
  <FILE>...  Event files, one for each runqueue

Options:
      --tries <N>   Tries for a runqueue's word in a round, 0 to 255 [default: 8]
      --rounds <N>  Rounds until an ask is given up, 1 to 65535 [default: 64]
      --view <V>    Play the files on one time line, in the order of their moments,
                    and print a view: timeline, steps, summary or picture
      --from <M>    Begin the picture at this moment [default: 0]
      --to <M>      End the picture at this moment [default: the last]
  -h, --help        Print this help
  -V, --version     Print the version

A file says what its runqueue admits, which tasks there are, and what they did:

    grub 1
    queue 1048576 0
    task A 4 8
    at 0 join A
    at 0 run A 2
    at 2 block A
    at 9 read

Status: 0 done, 1 a file is at fault, 2 the command line is wrong, 3 a file cannot be
read, or memory, a thread or the output was refused.
";
