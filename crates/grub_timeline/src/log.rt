//! What was told so far, for clauses alone.
ghost use Rattle.std.specs.Prelude.{◌≡◌, List, [], ◌∷◌, ◌++◌};
ghost use Rattle.std.specs.Borrow.{ftrue};
ghost use Rattle.grub_timeline.specs.declared.told.ToldEntry.{ToldEntry};

use crate::told::ToldEntry;
use std::marker::{Model, PhantomData};

/// A list of entries that has no bytes: clauses read it as `items`.
#[derive(Drop)]
pub struct Log {
    marker: PhantomData<u8>,
    pub ghost items: { List ToldEntry },
}

impl Model for Log {
    ghost also_owns = { λ _. ftrue };
}

impl Log {
    /// The empty list.
    pub(crate) fn new() -> Log
        ensures { result.items ≡ [] }
    {
        Log {
            marker: PhantomData,
        }
    }

    /// The list with one entry more.
    pub(crate) fn and(&self, told: &ToldEntry) -> Log
        ensures { result.items ≡ self.now.items ++ told.now ∷ [] }
    {
        Log {
            marker: PhantomData,
        }
    }
}
