//! Makes the steps of a time line while it is played.

ghost use Rattle.std.specs.Prelude.{◌≡◌, ◌≤◌, vec_len, vec_capacity};
ghost use Rattle.grub_timeline.specs.Fitting.{AreToldIn};
ghost use Rattle.grub_timeline.specs.Past.{book_past};
ghost use Rattle.grub_timeline.specs.Replay.{steps_from};

use grub_book::Book;
use grub_timeline::{Step, ToldEntry, fill_steps};

/// Makes the steps of a time line while it is played: it asks a book again what the entries asked.
#[derive(Drop)]
pub struct StepMaker<'a> {
    /// The book, as it is before the latest entries.
    pub book: Book<'a>,

    /// The latest entries. It has to have room for those of any line.
    pub latest: Vec<ToldEntry>,

    /// Their steps. It has to have room for those of as many entries as are played at a time.
    pub steps: Vec<Step>,
}

impl StepMaker<'_> {
    /// Makes the steps of the latest entries, in place of those before them. The book goes on with the entries.
    pub(crate) fn make(&mut self)
        requires told { AreToldIn self.old.book.setup self.old.latest.items }
        requires room { vec_len self.old.latest ≤ vec_capacity self.old.steps }
        ensures steps { self.new.steps.items
            ≡ steps_from self.old.book.setup self.old.book.records self.old.latest.items }
        ensures setup { self.new.book.setup ≡ self.old.book.setup }
        ensures records { self.new.book.records
            ≡ book_past self.old.book.setup self.old.book.records self.old.latest.items }
        ensures room { vec_capacity self.new.steps ≡ vec_capacity self.old.steps }
        ensures latest { self.new.latest ≡ self.old.latest }
    {
        fill_steps(&mut self.steps, &mut self.book, &self.latest);
    }
}
