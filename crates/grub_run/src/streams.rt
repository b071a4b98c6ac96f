//! Where a program prints.

/// The two streams of a program: what is asked for goes to `out`, and the line of a fault to `faults`.
#[derive(Drop)]
pub struct Streams<W, E> {
    pub out: W,
    pub faults: E,
}
