//! Why a view was not written, or not all of it.

use grub_trace::TraceFault;
use thiserror::Error;

/// Why a view was not written, or not all of it.
#[derive(Clone, Copy, Debug, PartialEq, Eq, Error)]
pub enum ShowFault {
    /// 28 to 37: the files were not read.
    #[error("{0}")]
    Trace(TraceFault),
    /// 48: no memory for the time line, or for the text of a view of it.
    #[error("48 NoMemory")]
    NoMemory,
    /// A picture that was to begin at this moment and to end at this one.
    #[error("a picture from {from} to {to} is empty")]
    EmptySpan { from: u32, to: u32 },
    /// 45: a write or the flush failed, or a write took nothing.
    #[error("45 WriteFault")]
    WriteFault,
}
