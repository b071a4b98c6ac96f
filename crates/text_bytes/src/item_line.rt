//! How the lines of items are made.

ghost use Rattle.std.specs.Prelude.{◌≡◌, ◌+◌, ◌≤◌, ◌++◌, ℕ, List, vec_len, vec_capacity};

use crate::pieces::LINE_MAX;

/// How the line of an item is made. It is a function of the item.
pub trait LineOf<X> {
    /// The items that have a line.
    ghost fits: { Self → X → Type 0 };

    /// The bytes of an item's line, with the one that ends it.
    ghost line: { Self → X → List ℕ };

    /// Appends the line of an item to a vector that has room for it, so no memory is taken.
    fn append(&self, out: &mut Vec<u8>, item: &X)
        requires fits { fits self.now item.now }
        requires room { vec_len out.old + LINE_MAX ≤ vec_capacity out.old }
        ensures text { out.new.items ≡ out.old.items ++ line self.now item.now }
        ensures len { vec_len out.new ≤ vec_len out.old + LINE_MAX }
        ensures room { vec_capacity out.old ≤ vec_capacity out.new };
}
