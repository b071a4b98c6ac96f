//! A node of a wheel.
use crate::timer::Timer;

/// An armed timer in the list of its slot, or a free place in the list of free places.
#[derive(Clone, Copy)]
pub struct Node {
    pub timer: Timer,
    pub armed: bool,

    /// The index of the node behind it in its list.
    pub next: Option<usize>,
}
