//! Elements of a list by their number.

/// The element at a place, or another one where there is none.
pub(crate) fn at<T: Copy>(list: &[T], i: usize, other: T) -> T {
    list.get(i).copied().unwrap_or(other)
}

/// Puts an element at a place, if there is one.
pub(crate) fn put<T: Copy>(list: &mut Vec<T>, i: usize, value: T) {
    if i < list.len() {
        list[i] = value;
    }
}
