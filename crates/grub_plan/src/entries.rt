//! The lines of a report's entries.

ghost use Rattle.std.specs.Prelude.{length};
ghost use Rattle.grub_plan.specs.Plans.{IsAskOf};
ghost use Rattle.grub_plan.specs.Texts.{entry_line};

use crate::entry::Entry;
use crate::pieces::append_entry;
use crate::plan::Plan;
use text_bytes::LineOf;

/// An entry is told with the plan's names. Its task is to be one of the plan's.
impl LineOf<Entry> for Plan {
    ghost fits = { λ plan entry. IsAskOf (length plan.setup.tasks) entry.ask };

    ghost line = { λ plan entry. entry_line plan.names entry };

    fn append(&self, out: &mut Vec<u8>, item: &Entry) {
        append_entry(out, self, *item);
    }
}
