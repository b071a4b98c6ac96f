//! What the lines of a kernel trace say: words alone, for those who read lines and those who play them.
#![tactic(auto)]

mod fixed;
mod line;
mod note;
mod probe;
mod quantities;

pub use fixed::{Fixed, Stop, TimerFunction};
pub use line::{Flaw, RecordLine, Said};
pub use note::{Kernel, Limit, Policy, ServerReservation, TraceNote};
pub use probe::{
    Admitted, Armed, CpuSpeed, Dequeued, Enqueued, Expiry, IdleCharge, LeftClass, Mark, Migrating,
    Picked, Probe, Ran, ServerIdled, ServerStarted, ServerStopped, Updated,
};
pub use quantities::{Budget, Donor, Parameters, Sums};
