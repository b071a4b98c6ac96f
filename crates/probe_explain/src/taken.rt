//! The lines that a player has taken, for clauses alone.

ghost use Rattle.std.specs.Prelude.{◌≡◌, List, [], ◌∷◌, ◌++◌};
ghost use Rattle.std.specs.Borrow.{ftrue};
ghost use Rattle.probe_explain.specs.declared.search.ProbeLine.{ProbeLine};

use crate::search::ProbeLine;
use std::marker::{Model, PhantomData};

/// A list of lines that has no bytes: clauses read it as `lines`.
#[derive(Drop)]
pub(crate) struct TakenLines {
    marker: PhantomData<u8>,
    pub ghost lines: { List ProbeLine },
}

impl Model for TakenLines {
    ghost also_owns = { λ _. ftrue };
}

impl TakenLines {
    /// No line.
    pub fn new() -> TakenLines
        ensures { result.lines ≡ [] }
    {
        TakenLines {
            marker: PhantomData,
        }
    }

    /// The list with one line more.
    pub fn and(&self, line: &ProbeLine) -> TakenLines
        ensures { result.lines ≡ self.now.lines ++ line.now ∷ [] }
    {
        TakenLines {
            marker: PhantomData,
        }
    }
}
