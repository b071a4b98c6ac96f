//! The table that runqueues share.

ghost use Rattle.std.specs.Prelude.{◌≡◌, ◌<◌};
ghost use Rattle.grub_table.specs.inside.Layout.{word_count};
ghost use Rattle.grub_book.specs.Machine.{IsMachine};

use crate::counted::CountedTable;
use crate::view::Terms;

/// The runqueues and tasks, lent to threads by reference.
#[derive(Drop)]
pub struct Shared {
    pub(crate) table: CountedTable,
    pub(crate) terms: Terms,
    ghost kept: { table.inner.shared.key ≡ terms },
    ghost words: { table.inner.shared.table_id.words ≡ word_count terms.setup },
    ghost slots: { table.inner.shared.table_id.slots ≡ 0 },
    ghost limited: { IsMachine terms.setup },
    ghost passes: { 0 < terms.passes },
}
