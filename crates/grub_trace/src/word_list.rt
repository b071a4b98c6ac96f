//! The words that were found in a line.

ghost use Rattle.std.specs.Prelude.{◌≡◌, ◌≤◌, take};

/// The most words that a form has.
pub const WORDS_MAX: usize = 6;

/// The words of a line, where they are six at most.
#[derive(Clone, Copy)]
pub struct WordList<'a> {
    pub list: [&'a [u8]; WORDS_MAX],
    pub count: usize,
    ghost counted: { count ≤ 6 },
}

impl<'a> WordList<'a> {
    /// The words, in order.
    pub(crate) fn as_slice(&self) -> &[&'a [u8]]
        ensures { result.now ≡ take self.now.count self.now.list }
    {
        &self.list[..self.count]
    }
}
