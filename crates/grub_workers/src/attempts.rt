//! How often an ask is tried.

/// How often an ask is tried: in at most `rounds` rounds, and in each with at most `tries` tries of the runqueue's word.
#[derive(Clone, Copy, Debug, PartialEq, Eq)]
pub struct Attempts {
    pub tries: u8,
    pub rounds: u16,
}
