//! Why a command of `grubtrace` has no answer, the line that tells it, and the program's status then.

ghost use Rattle.std.specs.Prelude.{◌≡◌, ◌⊎◌, ◌++◌, MatchResult, OnOk, codes};
ghost use Rattle.std.specs.Io.KnownBytes.{Appends};
ghost use Rattle.trace_options.specs.Faults.{line_of, status_of};
ghost use Rattle.trace_options.specs.Messages.{event_file_line, fault_line, file_place, flaw_told, kernel_line, line_place, no_jobs_line, no_task_line, uncompared_line, unknown_line, unknown_sum_line, untried_place};

use std::alloc::AllocError;
use std::io;
use std::io::Write;
use trace_data::{Flaw, Kernel};

/// The trace is at fault, or a file is there already.
pub const STATUS_FILE: u8 = 1;

/// The command line is wrong.
pub const STATUS_USAGE: u8 = 2;

/// Memory, a file or a writer failed.
pub const STATUS_SYSTEM: u8 = 3;

/// The kernel's accounting differs from the rules.
pub const STATUS_DIFFERS: u8 = 4;

/// The kernel agrees with its rules, and breaks a law by none of its known faults.
pub const STATUS_LAW: u8 = 5;

/// Why nothing of a record could be compared.
#[derive(Clone, Copy)]
pub enum Uncompared {
    /// It shows no task of SCHED_DEADLINE.
    NoTask,

    /// None of its tasks blocks, and none starts a replenishment timer.
    NoBlock,

    /// Each block and timer is left out, some since no line tells how fast a CPU ran.
    UnknownSpeed,

    /// Each block and timer is left out, some since `extra_bw` is not known from this line on.
    UnknownSum {
        line: u64,
    },

    /// Each block and timer is left out: so many at the record's ends, of what is unknown, at edges and in gaps.
    Left {
        ends: u64,
        unknown: u64,
        edges: u64,
        gaps: u64,
    },

    /// No line of a probe shows a value that an earlier one has told.
    NoValue,
}

/// Why there is no answer.
#[derive(Drop)]
pub enum Fault<'a> {
    /// 51, 52, 54, 55: a line of the trace is wrong.
    Line {
        line: u64,
        flaw: Flaw,
    },

    /// 49: a task was given that the trace does not show.
    NoSuchTask {
        name: &'a str,
    },

    /// 50: a line shows a SCHED_DEADLINE task that was neither given nor noted.
    UnknownTask {
        line: u64,
        pid: u64,
        comm: Vec<u8>,
    },

    /// 53: no timer of any kind was recorded, so nothing can be compared.
    NoTimers,

    /// 54: a CPU that is not of the root domain.
    OutsideDomain {
        line: u64,
    },

    /// 55: a note whose list of CPUs is none, or that stands behind a line of a later moment.
    BadNote {
        line: u64,
    },

    /// 56: a file would be written over.
    FileExists {
        path: &'a str,
    },

    /// 56: the event file of a runqueue would be written over.
    EventFileExists {
        prefix: &'a str,
        runqueue: usize,
    },

    /// 58: a task was given that has no job that counts.
    NoJobs {
        name: &'a str,
    },

    /// 59: the kernel's limit changed while the record was made.
    Changed {
        line: u64,
    },

    /// 60: the sums of this kernel depend on its past, and no note tells them.
    NoSums {
        kernel: Kernel,
    },

    /// 61: not one value, block or timer was compared.
    NothingCompared {
        why: Uncompared,
    },

    /// 62: so many values differ, of a kernel whose release is not among those that were tried.
    UntriedKernel {
        kernel: Kernel,
        tried: &'a str,
        differ: u64,
    },

    /// 45: what is told could not be written.
    Write,

    /// 46: the trace cannot be read.
    Unreadable,

    /// 47: no memory.
    NoMemory,

    /// 48: no memory for a text.
    NoText,
}

impl Fault<'_> {
    /// The program's status.
    pub fn status(&self) -> u8
        ensures value { result ≡ status_of self.now }
        ensures kind { (result ≡ STATUS_FILE) ⊎ (result ≡ STATUS_SYSTEM) }
    {
        match self {
            Fault::Write | Fault::Unreadable | Fault::NoMemory | Fault::NoText => STATUS_SYSTEM,
            _ => STATUS_FILE,
        }
    }

    /// The line of the trace that is at fault, where one is.
    pub fn line(&self) -> Option<u64>
        ensures { result ≡ line_of self.now }
    {
        match self {
            Fault::Line { line, .. }
            | Fault::UnknownTask { line, .. }
            | Fault::OutsideDomain { line }
            | Fault::BadNote { line }
            | Fault::Changed { line } => Some(*line),
            _ => None,
        }
    }

    /// Writes the line that tells it, of the trace at this path.
    pub fn tell<E: Write>(&self, path: &str, to: &mut E) -> io::Result<()>
        ensures { OnOk result
            (Appends (E.contents to.old) (E.contents to.new) (fault_line path.now self.now)) }
    {
        match self {
            Fault::Line { line, flaw } => tell_at(to, path, *line, flaw_text(*flaw)),
            Fault::NoSuchTask { name } => tell_no_task(to, path, name),
            Fault::UnknownTask { line, pid, comm } => tell_unknown(to, path, *line, comm, *pid),
            Fault::NoTimers => tell_of(to, path, b"53 NoTimers\n"),
            Fault::OutsideDomain { line } => tell_at(to, path, *line, b"54 TooLong\n"),
            Fault::BadNote { line } => tell_at(to, path, *line, b"55 BadTraceLine\n"),
            Fault::FileExists { path } => tell_of(to, path, b"56 FileExists\n"),
            Fault::EventFileExists { prefix, runqueue } => tell_event_file(to, prefix, *runqueue),
            Fault::NoJobs { name } => tell_no_jobs(to, path, name),
            Fault::Changed { line } => tell_at(to, path, *line, b"59 Changed rt\n"),
            Fault::NoSums { kernel } => tell_kernel(to, path, *kernel),
            Fault::NothingCompared { why } => tell_uncompared(to, path, *why),
            Fault::UntriedKernel {
                kernel,
                tried,
                differ,
            } => tell_untried(to, path, *kernel, *differ, tried),
            Fault::Write => to.write_all(b"grubtrace: 45 WriteFault\n"),
            Fault::Unreadable => tell_of(to, path, b"46 ReadFault\n"),
            Fault::NoMemory => to.write_all(b"grubtrace: 47 NoMemory\n"),
            Fault::NoText => to.write_all(b"grubtrace: 48 NoMemory\n"),
        }
    }

    /// Writes that line where it can be written, and gives the program's status.
    pub fn told<E: Write>(&self, path: &str, faults: &mut E) -> u8
        ensures value { result ≡ status_of self.now }
        ensures kind { (result ≡ STATUS_FILE) ⊎ (result ≡ STATUS_SYSTEM) }
    {
        let _ = self.tell(path, faults);
        self.status()
    }
}

/// The status of a result, whose fault is told of the trace at this path.
pub fn told_status<E: Write>(done: Result<(), Fault<'_>>, path: &str, faults: &mut E) -> u8
    ensures told { MatchResult done.entry (λ _. result ≡ 0) (λ e. result ≡ status_of e) }
    ensures status { (result ≡ 0) ⊎ (result ≡ STATUS_FILE) ⊎ (result ≡ STATUS_SYSTEM) }
{
    match done {
        Ok(()) => 0,
        Err(fault) => fault.told(path, faults),
    }
}

/// The number and the name of what is wrong with a line.
fn flaw_text(flaw: Flaw) -> &'static [u8]
    ensures { result.now ≡ flaw_told flaw }
{
    match flaw {
        Flaw::WrongClock => b"51 WrongClock\n",
        Flaw::LostEvents => b"52 LostEvents\n",
        Flaw::TooLong => b"54 TooLong\n",
        Flaw::BadTraceLine => b"55 BadTraceLine\n",
    }
}

/// Writes what is told of a file.
fn tell_of<E: Write>(to: &mut E, path: &str, what: &[u8]) -> io::Result<()>
    ensures { OnOk result
        (Appends (E.contents to.old) (E.contents to.new) (file_place path.now ++ what.now)) }
{
    write!(to, "grubtrace: {path}: ")?;
    to.write_all(what)
}

/// Writes what is told of a line of a trace.
fn tell_at<E: Write>(to: &mut E, path: &str, line: u64, what: &[u8]) -> io::Result<()>
    ensures { OnOk result
        (Appends (E.contents to.old) (E.contents to.new) (line_place path.now line ++ what.now)) }
{
    write!(to, "grubtrace: {path}:{line}: ")?;
    to.write_all(what)
}

/// Writes that a task was given which the trace does not show.
fn tell_no_task<E: Write>(to: &mut E, path: &str, name: &str) -> io::Result<()>
    ensures { OnOk result
        (Appends (E.contents to.old) (E.contents to.new) (no_task_line path.now name.now)) }
{
    writeln!(to, "grubtrace: {path}: 49 NoSuchTask {name}")
}

/// Writes that a task was given which has no job that counts.
fn tell_no_jobs<E: Write>(to: &mut E, path: &str, name: &str) -> io::Result<()>
    ensures { OnOk result
        (Appends (E.contents to.old) (E.contents to.new) (no_jobs_line path.now name.now)) }
{
    writeln!(to, "grubtrace: {path}: 58 NoJobs {name}")
}

/// Writes that the event file of a runqueue is there.
fn tell_event_file<E: Write>(to: &mut E, prefix: &str, runqueue: usize) -> io::Result<()>
    ensures { OnOk result
        (Appends (E.contents to.old) (E.contents to.new) (event_file_line prefix.now runqueue)) }
{
    writeln!(to, "grubtrace: {prefix}.cpu{runqueue}.grub: 56 FileExists")
}

/// Writes which task was not given; its comm may be no text.
fn tell_unknown<E: Write>(
    to: &mut E,
    path: &str,
    line: u64,
    comm: &[u8],
    pid: u64,
) -> io::Result<()>
    ensures { OnOk result
        (Appends (E.contents to.old) (E.contents to.new)
        (unknown_line path.now line comm.now pid)) }
{
    tell_at(to, path, line, b"50 UnknownTask ")?;
    to.write_all(comm)?;
    writeln!(to, " (pid {pid})")
}

/// Writes of which kernel no note tells the sums.
fn tell_kernel<E: Write>(to: &mut E, path: &str, kernel: Kernel) -> io::Result<()>
    ensures { OnOk result
        (Appends (E.contents to.old) (E.contents to.new) (kernel_line path.now kernel)) }
{
    let (major, minor, patch) = (kernel.major, kernel.minor, kernel.patch);
    writeln!(
        to,
        "grubtrace: {path}: 60 NoSums kernel {major}.{minor}.{patch}"
    )
}

/// Writes why nothing was compared.
fn tell_uncompared<E: Write>(to: &mut E, path: &str, why: Uncompared) -> io::Result<()>
    ensures { OnOk result
        (Appends (E.contents to.old) (E.contents to.new) (uncompared_line path.now why)) }
{
    match why {
        Uncompared::NoTask => tell_of(to, path, b"61 NothingCompared no task of SCHED_DEADLINE\n"),
        Uncompared::NoBlock => tell_of(to, path, b"61 NothingCompared no task blocks\n"),
        Uncompared::NoValue => tell_of(to, path, b"61 NothingCompared each value is shown once\n"),
        Uncompared::UnknownSpeed => tell_of(
            to,
            path,
            b"61 NothingCompared no line tells how fast the CPUs ran\n",
        ),
        Uncompared::UnknownSum { line } => tell_unknown_sum(to, path, line),
        Uncompared::Left {
            ends,
            unknown,
            edges,
            gaps,
        } => writeln!(
            to,
            "grubtrace: {path}: 61 NothingCompared ends {ends}, unknown {unknown}, edges {edges}, gaps {gaps}"
        ),
    }
}

/// Writes from which line on a sum is not known.
fn tell_unknown_sum<E: Write>(to: &mut E, path: &str, line: u64) -> io::Result<()>
    ensures { OnOk result
        (Appends (E.contents to.old) (E.contents to.new) (unknown_sum_line path.now line)) }
{
    writeln!(
        to,
        "grubtrace: {path}: 61 NothingCompared extra_bw is unknown from line {line} on"
    )
}

impl From<AllocError> for Fault<'_> {
    ghost use Rattle.trace_options.specs.declared.fault.Fault.TheVariants.{NoMemory};

    ghost from_gives = { λ _ e. e ≡ NoMemory };

    fn from(_: AllocError) -> Self {
        Fault::NoMemory
    }
}

/// Writes how much differs of a kernel whose release was not tried, and which were.
fn tell_untried<E: Write>(
    to: &mut E,
    path: &str,
    kernel: Kernel,
    differ: u64,
    tried: &str,
) -> io::Result<()>
    ensures { OnOk result
        (Appends (E.contents to.old) (E.contents to.new)
        (untried_place path.now kernel differ ++ (tried.now ++ codes "\n"))) }
{
    let Kernel {
        major,
        minor,
        patch,
    } = kernel;
    write!(
        to,
        "grubtrace: {path}: 62 UntriedKernel kernel {major}.{minor}.{patch}, {differ} differ; tried: "
    )?;
    writeln!(to, "{tried}")
}
