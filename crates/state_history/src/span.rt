//! Spans of a record.

/// From a moment to a later one, or to the same.
#[derive(Clone, Copy, Debug, PartialEq, Eq)]
pub struct Span {
    pub from: u64,
    pub to: u64,
}

/// What two spans have in common; none where one ends before the other begins.
pub fn common(one: Span, other: Span) -> Option<Span> {
    let from = one.from.max(other.from);
    let to = one.to.min(other.to);
    if from <= to {
        Some(Span { from, to })
    } else {
        None
    }
}
