//! Why reports or a view were not printed, or not all of them, and the program's status then.

ghost use Rattle.std.specs.Prelude.{◌≡◌};
ghost use Rattle.grub_run.specs.Faults.{status_of};

use crate::grub_fault::GrubFault;
use thiserror::Error;

/// A file, or all files, could not be used: the reports are not there.
pub const STATUS_FILE: u8 = 1;

/// The command line is wrong.
pub const STATUS_USAGE: u8 = 2;

/// Memory, a thread, a file or a writer failed.
pub const STATUS_SYSTEM: u8 = 3;

/// Why not all reports were printed, or not the whole view. Its text is what the line on standard error tells.
#[derive(Clone, Copy, Debug, PartialEq, Eq, Error)]
pub enum ProgramFault<'a> {
    #[error("{path}: 44 FileTooLong")]
    TooLong {
        path: &'a str,
    },
    #[error("{path}: 46 ReadFault")]
    Unreadable {
        path: &'a str,
    },
    /// A fault of a file's line.
    #[error("{path}:{line}: {fault}")]
    Line {
        path: &'a str,
        line: usize,
        fault: GrubFault,
    },
    /// Any other fault of a run, and the writer's of a view.
    #[error("{0}")]
    Run(GrubFault),
    /// 48: no memory for the time line, or for the text of a view of it.
    #[error("48 NoMemory")]
    View,
    /// A picture that was to begin at this moment and to end at this one.
    #[error("a picture from {from} to {to} is empty: it has to begin before it ends")]
    EmptySpan {
        from: u32,
        to: u32,
    },
    /// No memory for the command line, or for the bytes of files.
    #[error("47 NoMemory")]
    NoMemory,
}

impl ProgramFault<'_> {
    /// The program's status.
    pub fn status(&self) -> u8
        ensures { result ≡ status_of self.now }
    {
        match self {
            ProgramFault::TooLong { .. } | ProgramFault::Line { .. } => STATUS_FILE,
            ProgramFault::EmptySpan { .. } => STATUS_USAGE,
            ProgramFault::Unreadable { .. }
            | ProgramFault::Run(_)
            | ProgramFault::View
            | ProgramFault::NoMemory => STATUS_SYSTEM,
        }
    }
}
