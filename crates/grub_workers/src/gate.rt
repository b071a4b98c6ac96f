//! What runs around the calls of the table.

/// What runs around each call of the table. It is a test's hook, and no lock on the table.
pub trait Gate: Sync {
    /// Runs just before a call of this worker. Its calls of `read`, `start`, `finish` and `cancel` count from 1.
    fn before(&self, worker: u32, call: u64);

    /// Runs just after that call returned.
    fn after(&self, worker: u32, call: u64);
}

/// Does nothing.
pub struct NoGate;

impl Gate for NoGate {
    fn before(&self, _worker: u32, _call: u64) {}

    fn after(&self, _worker: u32, _call: u64) {}
}
